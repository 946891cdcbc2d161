// A pass in which an allocation fails. Here none does; `./check memory` refuses each between the two lines that the test writes to
// standard error.
ghost use Rattle.std.specs.Prelude.{◌≡◌, All, IfOk, length, vec_len};
ghost use Rattle.ipc_combiner.specs.Closing.{IsClientOf};
ghost use Rattle.ipc_combiner.specs.States.{IsOf, keeping};
ghost use Rattle.ipc_combiner.specs.declared.entries.Keeping.TheVariants.{Whole};

use crate::passes::{Told, all_posted, all_told, handed_in, pass, put_back};
use crate::services::{ended, joined, one_of, parked, replied, service_for, waiting};
use ipc_call::{Answer, Call, IPC_CREAT, Kind, Reply};
use ipc_combiner::{Client, Idle, InFlight, Service};
use ipc_space::Space;
use std::alloc::{AllocError, Global};
use std::process::Abort;
use std::test::Fail;
use test_support::calls::{get, receive, send};
use test_support::journal::calls_of;

/// How many clients call in the pass, and how many more wait: client 9 for client 1's message, and 10 for client 2's.
const CALLERS: usize = 9;

const CLIENTS: usize = 11;

/// The client that forks, and the one into which it does, whose thread has ended. The latter calls before it.
const PARENT: usize = 7;

const CHILD: usize = 8;

/// How many calls the parent made before the pass, the child, and all.
const OF_PARENT: u64 = 3;

const OF_CHILD: u64 = 1;

const BEFORE: u64 = 6;

/// What the clients call in the pass, the last one's call first: each kind of call that allocates.
fn calls(alloc: Global) -> Result<Vec<Call>, AllocError> {
    let (key, flags, kind) = (5, IPC_CREAT | 0o600, Kind::Queue);
    let sets = Call::SemGet {
        key,
        nsems: 1000,
        flags,
    };
    let segments = Call::ShmGet {
        key,
        size: 4096,
        flags,
    };
    let mut calls = Vec::new(alloc);
    calls.push(get(key))?;
    calls.push(Call::Fork {
        child: CHILD as u32,
        pid: 70,
    })?;
    calls.push(Call::Listing { kind })?;
    calls.push(Call::IpcStat { kind, id: 0 })?;
    calls.push(segments)?;
    calls.push(sets)?;
    calls.push(send(alloc, 4)?)?;
    calls.push(send(alloc, 3)?)?;
    calls.push(get(6))?;
    Ok(calls)
}

fn is_message(reply: Reply) -> bool {
    matches!(
        reply,
        Reply::Entered {
            outcome: Ok(Answer::Message { .. }),
            ..
        }
    )
}

/// A client that waited for a message: it has it, or waits still where its sender's call failed.
fn received(rt: &impl Abort, service: &Service, flight: InFlight, failed: bool) -> Client
    requires { IsOf service.now.list flight.joined }
    ensures { IsClientOf service.now.list result }
{
    if failed {
        return Client::InFlight(parked(rt, service, flight));
    }
    let (idle, reply) = ended(rt, service, flight);
    assert!(rt; is_message(reply));
    Client::Idle(idle)
}

/// The journal has each call but those for which an allocation failed.
fn check_journal(rt: &impl Abort, space: &Space, failed: &[bool]) {
    let mut entered = BEFORE;
    for client in 0..CALLERS {
        let is_failed = failed.get(client).copied().unwrap_or(false);
        let before = match client {
            PARENT => OF_PARENT,
            CHILD => OF_CHILD,
            _ => 0,
        };
        let calls = before.wrapping_add(u64::from(!is_failed));
        assert_eq!(rt; calls_of(space.journal(), client as u32), calls);
        entered = entered.wrapping_add(u64::from(!is_failed));
    }
    assert_eq!(rt; space.events(), entered);
}

/// For which of the clients an allocation failed.
fn failed_of(alloc: Global, told: &[Told]) -> Result<Vec<bool>, AllocError>
    ensures { IfOk result (λ m. vec_len m ≡ length told.now) }
{
    let mut failed = Vec::new(alloc);
    for each in told {
        failed.push(each.failed)?;
    }
    Ok(failed)
}

/// The pass, of calls that are posted while two clients wait.
fn pass_of<R: Abort + AllocGlobal + Eprint>(
    rt: &R,
    service: Service,
    mut flights: Vec<InFlight>,
    third: InFlight,
    fourth: InFlight,
) -> Result<(), Fail>
    requires keeping { keeping service.list ≡ Whole }
    requires count { service.list.clients ≡ 11 }
    requires flights { All (λ f. IsOf service.list f.joined) flights.items }
    requires third { IsOf service.list third.joined }
    requires fourth { IsOf service.list fourth.joined }
{
    eprintln!(rt; "pass begins")?;
    let passed = pass(&service, &mut flights)?;
    eprintln!(rt; "pass ends")?;
    assert!(rt; passed);
    let told = all_told(rt, &service, flights)?;
    let failed = failed_of(rt.alloc(), told.as_slice())?;
    assert_eq!(rt; failed.len(), CALLERS);
    if failed.iter().any(|failed| *failed) {
        eprintln!(rt; "a call was answered Memory")?;
    }
    let third = received(rt, &service, third, failed[1]);
    let fourth = received(rt, &service, fourth, failed[2]);
    let clients = handed_in(rt.alloc(), &service, told, third, fourth)?;
    assert_eq!(rt; clients.len(), CLIENTS);
    let space = service.close(clients);
    check_journal(rt, &space, failed.as_slice());
    drop(space);
    Ok(())
}

/// The parent makes a queue and a segment, and attaches the segment: of that its child is to have a copy.
fn parent_of(rt: &impl Abort, service: &Service, idle: Idle) -> Idle
    requires { IsOf service.now.list idle.joined }
    ensures { IsOf service.now.list result.joined }
{
    let segment = Call::ShmGet {
        key: 5,
        size: 16,
        flags: IPC_CREAT | 0o600,
    };
    let attach = Call::ShmAt { id: 0, flags: 0 };
    let idle = replied(rt, service, idle, get(5), Ok(Answer::Id(0)));
    let idle = replied(rt, service, idle, segment, Ok(Answer::Id(0)));
    replied(rt, service, idle, attach, Ok(Answer::Attached(0)))
}

#[test]
fn a_pass_loses_no_call(rt: HostRuntime) -> Result<(), Fail> {
    let (service, clients) = service_for(&rt, 11)?;
    let mut idles = joined(&rt, &service, clients)?;
    let fourth = one_of(&rt, &service, &mut idles);
    let third = one_of(&rt, &service, &mut idles);
    let child = one_of(&rt, &service, &mut idles);
    let parent = one_of(&rt, &service, &mut idles);
    let child = replied(&rt, &service, child, Call::Exit, Ok(Answer::Done));
    let parent = parent_of(&rt, &service, parent);
    put_back(&service, &mut idles, parent)?;
    put_back(&service, &mut idles, child)?;
    let third = waiting(&rt, &service, third, receive(0, 3));
    let fourth = waiting(&rt, &service, fourth, receive(0, 4));
    let flights = all_posted(rt.alloc(), &service, idles, calls(rt.alloc())?)?;
    pass_of(&rt, service, flights, third, fourth)
}
