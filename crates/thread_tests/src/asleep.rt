// A client whose call waits for long sleeps, and is woken as its call ends.
ghost use Rattle.ipc_combiner.specs.States.{IsOf};

use crate::services::{is_granted, joined, one_of, replied, service_for};
use ipc_call::Answer;
use ipc_combiner::{Idle, Service};
use std::process::Abort;
use std::sync::Wait;
use std::test::Fail;
use std::thread;
use std::thread::Threads;
use std::time::{Clock, Duration};
use test_support::calls::{get, receive, send};

/// How many messages are sent. Each wakes the receiver at most once.
const ROUNDS: u32 = 60;

/// How often the receiver is to be woken. A message to a client that is seen asleep doesn't wake it where its sleep of a
/// millisecond ends by itself right then.
const WAKES: u64 = 5;

/// How often the sender looks whether the receiver sleeps, before it gives up.
const LOOKS: u32 = 50_000;

/// Waits until a client sleeps, for `LOOKS` looks at most. Whether one did.
fn sees_a_sleeper<R: Clock>(rt: &R, service: &Service) -> bool {
    for _ in 0..LOOKS {
        if service.asleep() == 1 {
            return true;
        }
        thread::sleep(rt, Duration::from_micros(100));
    }
    false
}

/// Sends message after message. Until the receiver was woken so often, each waits until it sleeps. Whether it always did.
fn send_all<R: Wait + Clock + Abort + AllocGlobal>(
    rt: &R,
    service: &Service,
    mut idle: Idle,
) -> bool
    requires { IsOf service.now.list idle.joined }
{
    let mut slept = true;
    for _ in 0..ROUNDS {
        if slept && service.wakes() < WAKES {
            slept = sees_a_sleeper(rt, service);
        }
        let Ok(message) = send(rt.alloc(), 1) else {
            panic!(rt; "no memory for a message");
        };
        let (next, reply) = idle.call(rt, service, 0, message);
        assert!(rt; is_granted(reply));
        idle = next;
    }
    slept
}

/// Receives as many, and waits for each.
fn receive_all<R: Wait + Abort>(rt: &R, service: &Service, mut idle: Idle)
    requires { IsOf service.now.list idle.joined }
{
    for _ in 0..ROUNDS {
        let (next, reply) = idle.call(rt, service, 0, receive(0, 0));
        assert!(rt; is_granted(reply));
        idle = next;
    }
}

/// Both at once. Whether the receiver slept each time that the sender waited for it.
fn at_once<R: Threads + Sync + Wait + Clock + Abort + AllocGlobal>(
    rt: &R,
    service: &Service,
    sender: Idle,
    receiver: Idle,
) -> bool
    requires sender { IsOf service.now.list sender.joined }
    requires receiver { IsOf service.now.list receiver.joined }
{
    let (slept, _) = thread::join(
        rt,
        move || -> bool
            requires { IsOf service.now.list sender.joined }
        { send_all(rt, service, sender) },
        move ||
            requires { IsOf service.now.list receiver.joined }
        { receive_all(rt, service, receiver) },
    );
    slept
}

#[test]
fn who_waits_for_long_sleeps_and_is_woken(rt: HostRuntime) -> Result<(), Fail> {
    let (service, clients) = service_for(&rt, 2)?;
    let mut idles = joined(&rt, &service, clients)?;
    let receiver = one_of(&rt, &service, &mut idles);
    let sender = one_of(&rt, &service, &mut idles);
    let sender = replied(&rt, &service, sender, get(5), Ok(Answer::Id(0)));
    assert!(rt; at_once(&rt, &service, sender, receiver));
    let wakes = service.wakes();
    assert!(rt; wakes >= WAKES && wakes <= u64::from(ROUNDS));
    assert_eq!(rt; service.asleep(), 0);
    Ok(())
}
