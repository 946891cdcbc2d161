// A client sleeps on its record while its call waits, and another wakes it.
ghost use Rattle.std.specs.Prelude.{◌≡◌, ◌≤◌, false};
ghost use Rattle.pub_list.specs.Clients.{view, work, BelongsTo};
ghost use Rattle.pub_counter.specs.Service.{IsResting};

use crate::swapping::{ask, told};
use pub_counter::Swap;
use pub_list::{Joined, List, WordState};
use std::process::Abort;
use std::sync::Wait;
use std::sync::atomic::{AtomicU64, Ordering};
use std::test::Fail;
use std::thread;
use std::thread::Threads;
use std::time::{Clock, Duration};
use test_support::waiting::wait_for;

/// How often a sleep may end for no reason.
const SLEEPS: u32 = 10;

/// Sleeps while the own call waits, each time for an hour where nobody wakes it. What it is told then.
fn sleep_out<R: Wait>(
    rt: &R,
    list: &List<Swap>,
    mut sleeper: Joined<Swap>,
    begins: &AtomicU64,
) -> Option<u64>
    requires list { BelongsTo list.now sleeper }
    requires unheld { (work sleeper).holds ≡ false }
{
    begins.store(1, Ordering::SeqCst);
    for _ in 0..SLEEPS {
        sleeper.sleep(rt, list, Duration::from_secs(3600));
        if let Ok(amount) = told(&mut sleeper, list) {
            return Some(amount);
        }
    }
    None
}

/// A while after client 0 goes to sleep, ends its call, and wakes it. Whether it could.
fn end_and_wake<R: Clock>(
    rt: &R,
    list: &List<Swap>,
    mut other: Joined<Swap>,
    begins: &AtomicU64,
) -> bool
    requires list { BelongsTo list.now other }
    requires idle { IsResting other.client (view other) }
    requires clients { 1 ≤ list.now.clients }
{
    wait_for(begins);
    thread::sleep(rt, Duration::from_millis(20));
    let has_passed = ask(&mut other, list, 7);
    list.wake(0);
    has_passed
}

/// Both at once.
fn at_once<R: Threads + Sync + Wait + Clock>(
    rt: &R,
    list: &List<Swap>,
    sleeper: Joined<Swap>,
    other: Joined<Swap>,
) -> (Option<u64>, bool)
    requires sleeper { (BelongsTo list.now sleeper) × ((work sleeper).holds ≡ false) }
    requires other { (BelongsTo list.now other) × IsResting other.client (view other) }
    requires clients { 1 ≤ list.now.clients }
{
    let begins = AtomicU64::new(0);
    thread::join(
        rt,
        || -> Option<u64>
            requires { (BelongsTo list.now sleeper) × ((work sleeper).holds ≡ false) }
        { sleep_out(rt, list, sleeper, &begins) },
        || -> bool
            requires { (BelongsTo list.now other) × IsResting other.client (view other) × (1 ≤ list.now.clients) }
        { end_and_wake(rt, list, other, &begins) },
    )
}

#[test]
fn who_sleeps_is_woken_as_its_call_ends(rt: HostRuntime) -> Result<(), Fail> {
    let (list, mut clients) = List::new(rt.alloc(), 2, Swap::new(rt.alloc()))?;
    let other = clients.pop().expect(&rt, "a client").join(&list);
    let mut sleeper = clients.pop().expect(&rt, "a client").join(&list);
    assert!(rt; ask(&mut sleeper, &list, 5));
    assert!(rt; matches!(told(&mut sleeper, &list), Err(WordState::Parked)));
    assert!(rt; matches!(at_once(&rt, &list, sleeper, other), (Some(7), true)));
    Ok(())
}
