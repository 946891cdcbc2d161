// Clients do their jobs, each in a thread of its own.
ghost use Rattle.std.specs.Prelude.{⊤};

use ipc_call::{Call, Items, JournalRow, Kind, Limits, Listed, Mode, Row, Rule};
use ipc_commands::Part;
use ipc_jobs::{Counts, Gate, Job, OpenGate, ThreadsEnd, run_threads};
use ipc_space::Space;
use std::alloc::{AllocError, Global};
use std::process::Abort;
use std::sync::Wait;
use std::sync::atomic::{AtomicU64, Ordering};
use std::test::Fail;
use std::thread::Threads;
use test_support::calls::{get, receive, semop, send};
use test_support::clients::users;
use test_support::journal::{answered, called};
use test_support::waiting::wait_for;

/// A job of one part.
fn job_of(alloc: Global, now: u64, part: Part) -> Result<Job, AllocError> {
    let mut parts = Vec::new(alloc);
    parts.push(part)?;
    let command = Items::new(parts);
    Ok(Job { now, command })
}

/// A job of one call.
pub(crate) fn job(alloc: Global, now: u64, call: Call) -> Result<Job, AllocError> {
    job_of(alloc, now, Part::Plain(call))
}

/// Each list of jobs is done by a client in a thread of its own.
pub(crate) fn end_of<R: Threads + Sync + Wait + Abort + AllocGlobal, G: Gate + Sync>(
    rt: &R,
    jobs: Vec<Vec<Job>>,
    gate: &G,
) -> Result<ThreadsEnd, Fail> {
    assert!(rt; 1 <= jobs.len() && jobs.len() <= 64);
    let alloc = rt.alloc();
    let creds = users(alloc, jobs.len())?;
    Ok(run_threads(rt, alloc, Limits::default(), creds, jobs, gate)?)
}

/// The client has so many calls in the journal, at the times 1, 2 and so on.
fn check_calls(rt: &impl Abort, space: &Space, number: u32, wanted: u64) {
    let mut count: u64 = 0;
    for row in space.journal() {
        if let JournalRow::Called { client, now, .. } = *row
            && client == number
        {
            count = count.wrapping_add(1);
            assert_eq!(rt; now, count, "of client {number}");
        }
    }
    assert_eq!(rt; count, wanted, "of client {number}");
}

/// What is counted of a client for each of whose calls there was memory.
pub(crate) fn counted(calls: u64, refusals: u64) -> Counts {
    Counts {
        calls,
        refusals,
        memory: 0,
    }
}

/// So many clients are held, and each has these counts, and its calls at the times of its jobs.
fn check_counts(rt: &impl Abort, end: &ThreadsEnd, held: u32, wanted: &[Counts]) {
    assert_eq!(rt; end.held, held);
    assert_eq!(rt; end.counts.as_slice(), wanted);
    for (client, counts) in (0..64).zip(wanted) {
        check_calls(rt, &end.space, client, counts.calls);
    }
}

/// The set of key 7 with so many semaphores, the first of the namespace.
fn set(nsems: u32) -> Call {
    let (key, flags) = (7, 0o1666);
    Call::SemGet { key, nsems, flags }
}

/// Gets the set, and adds 1 a hundred times.
fn additions(alloc: Global) -> Result<Vec<Job>, AllocError> {
    let mut jobs = Vec::new(alloc);
    jobs.push(job(alloc, 1, set(1))?)?;
    for now in 2..102 {
        jobs.push(job(alloc, now, semop(alloc, 0, 1, 0)?)?)?;
    }
    Ok(jobs)
}

/// How many semops of the client are in the journal.
fn semops_of(space: &Space, number: u32) -> usize {
    let rows = space.journal().iter();
    rows.filter(
        |row| matches!(*row, JournalRow::Called { client, call: Call::SemOp { .. }, .. } if *client == number),
    ).count()
}

/// The one object is the set, with these values.
fn check_set(rt: &impl Abort, space: &Space, values: &[u16]) -> Result<(), Fail> {
    let lines = space.lines()?;
    assert_eq!(rt; lines.len(), 1);
    assert_eq!(rt; lines[0].1.as_slice(), values);
    let object = Listed {
        key: 7,
        id: 0,
        uid: 100,
        mode: Mode::from_low_bits(0o666),
    };
    let nsems = values.len() as u64;
    assert_eq!(rt; lines[0].0, Row::Set { object, nsems });
    Ok(())
}

/// Four clients have made a hundred additions each.
fn check_sum(rt: &impl Abort, end: &ThreadsEnd) -> Result<(), Fail> {
    check_counts(
        rt,
        end,
        0,
        &[
            counted(101, 0),
            counted(101, 0),
            counted(101, 0),
            counted(101, 0),
        ],
    );
    for client in 0..4 {
        assert_eq!(rt; semops_of(&end.space, client), 100);
    }
    check_set(rt, &end.space, &[400])
}

#[test]
fn four_clients_add_to_a_semaphore(rt: HostRuntime) -> Result<(), Fail> {
    let mut jobs = Vec::new(rt.alloc());
    for _ in 0..4 {
        jobs.push(additions(rt.alloc())?)?;
    }
    let end = end_of(&rt, jobs, &OpenGate)?;
    let checked = check_sum(&rt, &end);
    drop(end);
    checked
}

/// So many jobs, each of one call, for the client of this number.
fn gets(alloc: Global, client: u32, count: u64) -> Result<Vec<Job>, AllocError> {
    let mut jobs = Vec::new(alloc);
    for nth in 0..count {
        let now = nth.wrapping_add(1);
        jobs.push(job(alloc, now, get(client.wrapping_add(1)))?)?;
    }
    Ok(jobs)
}

/// The lists of jobs of as many clients, each of so many jobs.
fn gets_of(alloc: Global, counts: &[u64]) -> Result<Vec<Vec<Job>>, AllocError> {
    let mut jobs = Vec::new(alloc);
    let mut client: u32 = 0;
    for count in counts {
        jobs.push(gets(alloc, client, *count)?)?;
        client = client.wrapping_add(1);
    }
    Ok(jobs)
}

/// Two clients wait for each other before their first jobs. Client 0 then waits until client 1 has done its first job,
/// and client 1 after it until client 0 has done its second.
#[derive(Drop)]
struct Meeting {
    zero_came: AtomicU64,
    one_came: AtomicU64,
    one_did: AtomicU64,
    zero_did: AtomicU64,
}

impl Gate for Meeting {
    ghost may_hold = { λ gate client nth. ⊤ };

    ghost may_pass = { λ gate client nth. ⊤ };

    ghost was_told = { λ gate client nth. ⊤ };

    fn before(&self, client: u32, nth: u64) -> bool {
        match (client, nth) {
            (0, 1) => {
                self.zero_came.store(1, Ordering::SeqCst);
                wait_for(&self.one_came)
            }
            (1, 1) => {
                self.one_came.store(1, Ordering::SeqCst);
                wait_for(&self.zero_came)
            }
            (0, 2) => wait_for(&self.one_did),
            (0, 3) => {
                self.zero_did.store(1, Ordering::SeqCst);
                true
            }
            _ => true,
        }
    }

    fn after(&self, client: u32, nth: u64) {
        if client == 1 && nth == 1 {
            self.one_did.store(1, Ordering::SeqCst);
            wait_for(&self.zero_did);
        }
    }
}

/// The place of the client's call at a time, among the rows of the journal.
fn place_of(space: &Space, number: u32, time: u64) -> Option<usize> {
    let mut rows = space.journal().iter();
    rows.position(
        |row| matches!(*row, JournalRow::Called { client, now, .. } if client == number && now == time),
    )
}

/// Client 1 called first before client 0 called for the second time.
fn check_meeting(rt: &impl Abort, end: &ThreadsEnd) {
    check_counts(rt, end, 0, &[counted(3, 0), counted(2, 0)]);
    let first = place_of(&end.space, 1, 1).expect(rt, "client 1 called");
    let second = place_of(&end.space, 0, 2).expect(rt, "client 0 called twice");
    assert!(rt; first < second);
}

#[test]
fn two_clients_meet_at_a_gate(rt: HostRuntime) -> Result<(), Fail> {
    let gate = Meeting {
        zero_came: AtomicU64::new(0),
        one_came: AtomicU64::new(0),
        one_did: AtomicU64::new(0),
        zero_did: AtomicU64::new(0),
    };
    let end = end_of(&rt, gets_of(rt.alloc(), &[3, 2])?, &gate)?;
    check_meeting(&rt, &end);
    drop(end);
    Ok(())
}

/// Stops client 1 before its second job, and client 2 before its first. It counts how often it is asked, and how often
/// it is told of a job.
#[derive(Drop)]
struct TwoStopped {
    asked: AtomicU64,
    told: AtomicU64,
}

impl Gate for TwoStopped {
    ghost may_hold = { λ gate client nth. ⊤ };

    ghost may_pass = { λ gate client nth. ⊤ };

    ghost was_told = { λ gate client nth. ⊤ };

    fn before(&self, client: u32, nth: u64) -> bool {
        self.asked.fetch_add(1, Ordering::SeqCst);
        !matches!((client, nth), (1, 2) | (2, 1))
    }

    fn after(&self, _client: u32, _nth: u64) {
        self.told.fetch_add(1, Ordering::SeqCst);
    }
}

#[test]
fn a_gate_stops_two_of_three(rt: HostRuntime) -> Result<(), Fail> {
    let gate = TwoStopped {
        asked: AtomicU64::new(0),
        told: AtomicU64::new(0),
    };
    let end = end_of(&rt, gets_of(rt.alloc(), &[3, 3, 3])?, &gate)?;
    check_counts(&rt, &end, 2, &[counted(3, 0), counted(1, 0), counted(0, 0)]);
    drop(end);
    assert_eq!(rt; gate.asked.load(Ordering::SeqCst), 6);
    assert_eq!(rt; gate.told.load(Ordering::SeqCst), 4);
    Ok(())
}

#[test]
fn a_client_without_jobs(rt: HostRuntime) -> Result<(), Fail> {
    let end = end_of(&rt, gets_of(rt.alloc(), &[2, 0, 3])?, &OpenGate)?;
    check_counts(&rt, &end, 0, &[counted(2, 0), counted(0, 0), counted(3, 0)]);
    drop(end);
    Ok(())
}

/// The call of a client at a place in a round, from 0 to 3. Client 0 asks, and waits for the answer; client 1 waits for the
/// question, and answers it: once by messages of the types 1 and 2, and once by the semaphores 0 and 1.
fn call_of(alloc: Global, client: u32, nth: u32) -> Result<Call, AllocError> {
    match (client, nth) {
        (0, 0) => send(alloc, 1),
        (0, 1) => Ok(receive(0, 2)),
        (0, 2) => semop(alloc, 0, 1, 0),
        (0, _) => semop(alloc, 1, -1, 0),
        (_, 0) => Ok(receive(0, 1)),
        (_, 1) => send(alloc, 2),
        (_, 2) => semop(alloc, 0, -1, 0),
        _ => semop(alloc, 1, 1, 0),
    }
}

/// A queue, a set of two semaphores, and a hundred rounds.
fn rounds(alloc: Global, client: u32) -> Result<Vec<Job>, AllocError> {
    let mut jobs = Vec::new(alloc);
    jobs.push(job(alloc, 1, get(5))?)?;
    jobs.push(job(alloc, 2, set(2))?)?;
    for at in 0..400u32 {
        let call = call_of(alloc, client, at % 4)?;
        jobs.push(job(alloc, u64::from(at) + 3, call)?)?;
    }
    Ok(jobs)
}

/// How many answers are in the journal, from a turn on: those that end a call that waited have one above 0.
fn answers(space: &Space, least: u32) -> usize {
    let rows = space.journal().iter();
    rows.filter(|row| matches!(*row, JournalRow::Answered { turn, .. } if least <= *turn))
        .count()
}

/// Every call has ended, some of them later than they came.
fn check_rounds(rt: &impl Abort, end: &ThreadsEnd) {
    check_counts(rt, end, 0, &[counted(402, 0), counted(402, 0)]);
    assert_eq!(rt; answers(&end.space, 0), 804);
    assert!(rt; answers(&end.space, 1) > 0, "no call of four hundred waits");
    assert!(rt; !end.space.is_waiting(0) && !end.space.is_waiting(1));
}

#[test]
fn waiting_calls_are_completed_by_others(rt: HostRuntime) -> Result<(), Fail> {
    let mut jobs = Vec::new(rt.alloc());
    for client in 0..2 {
        jobs.push(rounds(rt.alloc(), client)?)?;
    }
    let end = end_of(&rt, jobs, &OpenGate)?;
    check_rounds(&rt, &end);
    drop(end);
    Ok(())
}

/// A queue is made and removed by its key, and then one that there isn't.
fn removals(alloc: Global) -> Result<Vec<Job>, AllocError> {
    let mut jobs = Vec::new(alloc);
    jobs.push(job(alloc, 1, get(5))?)?;
    jobs.push(job_of(alloc, 2, Part::RemoveByKey(Kind::Queue, 5))?)?;
    jobs.push(job_of(alloc, 3, Part::RemoveByKey(Kind::Queue, 6))?)?;
    Ok(jobs)
}

/// The row of these removals at a place, from 0 to 7.
fn row_of_removals(nth: u32) -> JournalRow {
    let (key, flags) = (5, 0);
    let (kind, id) = (Kind::Queue, 0);
    match nth {
        0 => called(0, 1, get(5)),
        1 => answered(0, 1, 0, None),
        2 => called(0, 2, Call::MsgGet { key, flags }),
        3 => answered(0, 2, 0, None),
        4 => called(0, 2, Call::IpcRmid { kind, id }),
        5 => answered(0, 3, 0, None),
        6 => called(0, 3, Call::MsgGet { key: 6, flags }),
        _ => answered(0, 4, 0, Some(Rule::NoKey)),
    }
}

fn rows_of_removals(alloc: Global) -> Result<Vec<JournalRow>, AllocError> {
    let mut rows = Vec::new(alloc);
    for nth in 0..8 {
        rows.push(row_of_removals(nth))?;
    }
    Ok(rows)
}

/// Of four calls one is refused, and the journal has these rows.
fn check_removals(rt: &impl Abort, end: &ThreadsEnd, rows: &[JournalRow]) {
    assert_eq!(rt; end.held, 0);
    assert_eq!(rt; end.counts.as_slice(), [counted(4, 1)].as_slice());
    assert!(rt; end.space.journal() == rows);
}

#[test]
fn a_removal_by_key_is_a_get_and_a_removal(rt: HostRuntime) -> Result<(), Fail> {
    let mut jobs = Vec::new(rt.alloc());
    jobs.push(removals(rt.alloc())?)?;
    let rows = rows_of_removals(rt.alloc())?;
    let end = end_of(&rt, jobs, &OpenGate)?;
    check_removals(&rt, &end, rows.as_slice());
    drop(end);
    Ok(())
}
