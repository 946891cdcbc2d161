// Sixty-four clients, each with a hundred random calls of every kind, those on processes and threads among them, none of which waits.

use crate::jobs::{counted, end_of, job};
use ipc_call::{Call, Limits};
use ipc_jobs::{Counts, Job, OpenGate, ThreadsEnd};
use ipc_space::{Replayed, Space, replay};
use std::alloc::{AllocError, Global};
use std::process::Abort;
use std::test::Fail;
use test_support::any_calls::{Choice, any_call, any_process_call};
use test_support::clients::users;
use test_support::journal::{calls_of, refusals_of};
use test_support::numbers::Numbers;

const CLIENTS: u32 = 64;

const CALLS: u32 = 100;

/// The call of a client at a place: one of the hundred is an exit, which comes at another place for each client, and one of
/// ten is on processes and threads.
fn call_of(
    alloc: Global,
    numbers: &mut Numbers,
    client: u32,
    place: u32,
) -> Result<Call, AllocError> {
    if place.wrapping_add(client) % CALLS == CALLS - 1 {
        return Ok(Call::Exit);
    }
    if numbers.once_in(10) {
        let begins = numbers.once_in(2);
        return any_process_call(alloc, numbers, begins);
    }
    any_call(alloc, numbers, &[], Choice::AtOnce)
}

/// A hundred calls as jobs of a client.
fn jobs_of(alloc: Global, client: u32) -> Result<Vec<Job>, AllocError> {
    let mut numbers = Numbers::new(u64::from(client));
    let mut jobs = Vec::new(alloc);
    for place in 0..CALLS {
        let call = call_of(alloc, &mut numbers, client, place)?;
        jobs.push(job(alloc, u64::from(place), call)?)?;
    }
    Ok(jobs)
}

/// The replay has the same journal.
fn check_same(rt: &impl Abort, replayed: &Replayed, space: &Space) {
    match replayed {
        Replayed::Same(same) => assert!(rt; same.journal() == space.journal()),
        Replayed::Differs(count) => panic!(rt; "only {count} rows begin a journal"),
    }
}

/// The journal is replayed to the same journal.
fn check_replay(rt: &(impl Abort + AllocGlobal), space: &Space) -> Result<(), Fail> {
    let creds = users(rt.alloc(), CLIENTS as usize)?;
    let replayed = replay(Limits::default(), creds, space.journal())?;
    check_same(rt, &replayed, space);
    drop(replayed);
    Ok(())
}

/// The client has its hundred calls in the journal, with as many refusals as were counted.
fn check_client(rt: &impl Abort, space: &Space, client: u32, counts: Counts) {
    let calls = calls_of(space.journal(), client);
    let refusals = refusals_of(space.journal(), client);
    assert_eq!(rt; counts, counted(calls, refusals), "of client {client}");
    assert_eq!(rt; calls, u64::from(CALLS), "of client {client}");
}

/// Each client has its calls in the journal, and none is held.
fn check_counted(rt: &impl Abort, end: &ThreadsEnd) {
    assert_eq!(rt; (end.held, end.counts.len()), (0, CLIENTS as usize));
    for (client, counts) in (0..CLIENTS).zip(&end.counts) {
        check_client(rt, &end.space, client, *counts);
    }
}

#[test]
fn sixty_four_clients_of_a_hundred_calls(rt: HostRuntime) -> Result<(), Fail> {
    let mut jobs = Vec::new(rt.alloc());
    for client in 0..CLIENTS {
        jobs.push(jobs_of(rt.alloc(), client)?)?;
    }
    let end = end_of(&rt, jobs, &OpenGate)?;
    check_counted(&rt, &end);
    let checked = check_replay(&rt, &end.space);
    drop(end);
    checked
}
