// Rows that are replayed: those of a queue for which two clients wait, cut and changed.

use ipc_call::{Call, JournalRow, Kind, Limits, Rule};
use ipc_space::{Replayed, replay};
use std::alloc::Global;
use std::process::Abort;
use std::test::Fail;
use test_support::calls::{receive, send};
use test_support::clients::user;
use test_support::journal::{answered, called};

const ALICE: u32 = 0;

const BOB: u32 = 1;

const CAROL: u32 = 2;

/// The row of a number, from 0 to 9. Alice makes a queue, bob and carol wait for a message, the message that alice sends
/// is bob's, and carol's call ends as alice removes the queue.
fn row(alloc: Global, nth: usize) -> Result<JournalRow, Fail> {
    let (key, flags) = (5, 0o1666);
    let (kind, id) = (Kind::Queue, 0);
    Ok(match nth {
        0 => called(ALICE, 0, Call::MsgGet { key, flags }),
        1 => answered(ALICE, 1, 0, None),
        2 => called(BOB, 0, receive(0, 0)),
        3 => called(CAROL, 0, receive(0, 0)),
        4 => called(ALICE, 0, send(alloc, 1)?),
        5 => answered(ALICE, 4, 0, None),
        6 => answered(BOB, 4, 1, None),
        7 => called(ALICE, 0, Call::IpcRmid { kind, id }),
        8 => answered(ALICE, 5, 0, None),
        _ => answered(CAROL, 5, 1, Some(Rule::Removed)),
    })
}

/// The first of the rows, so many.
fn rows_to(alloc: Global, count: usize) -> Result<Vec<JournalRow>, Fail> {
    let mut rows = Vec::new(alloc);
    for nth in 0..count {
        rows.push(row(alloc, nth)?)?;
    }
    Ok(rows)
}

/// How many of the rows begin a journal. None where they are that of the namespace.
fn length_of(rt: &impl Abort, replayed: &Replayed, rows: &[JournalRow]) -> Option<u64> {
    match replayed {
        Replayed::Same(space) => {
            assert!(rt; space.journal() == rows);
            None
        }
        Replayed::Differs(count) => Some(*count),
    }
}

/// How many of the rows begin a journal of three clients with these limits. None where they are one, which the
/// namespace then has.
fn parted(
    rt: &(impl Abort + AllocGlobal),
    limits: Limits,
    rows: &[JournalRow],
) -> Result<Option<u64>, Fail> {
    assert!(rt; limits.in_range());
    let alloc = rt.alloc();
    let mut clients = Vec::new(alloc);
    for uid in [100, 200, 300] {
        clients.push(user(uid, 10))?;
    }
    assert_eq!(rt; clients.len(), 3);
    let replayed = replay(limits, clients, rows)?;
    let length = length_of(rt, &replayed, rows);
    drop(replayed);
    Ok(length)
}

/// So many of the rows begin a journal. None where they are one.
fn check_parted(
    rt: &(impl Abort + AllocGlobal),
    limits: Limits,
    rows: &[JournalRow],
    wanted: Option<u64>,
) -> Result<(), Fail> {
    let found = parted(rt, limits, rows)?;
    assert_eq!(rt; found, wanted, "of {} rows", rows.len());
    Ok(())
}

/// What comes of so many of the ten rows, from none to all.
const CUT: [Option<u64>; 11] = [
    None,
    Some(1),
    None,
    None,
    None,
    Some(5),
    Some(6),
    None,
    Some(8),
    Some(9),
    None,
];

/// The ten rows cut at each place, and begun with an answer.
fn are_cut(rt: &(impl Abort + AllocGlobal), rows: &[JournalRow]) -> Result<(), Fail> {
    assert_eq!(rt; rows.len(), 10);
    for count in 0..11 {
        check_parted(rt, Limits::default(), &rows[..count], CUT[count])?;
    }
    check_parted(rt, Limits::default(), &rows[1..], Some(0))
}

#[test]
fn rows_that_end_inside_an_event_are_no_journal(rt: HostRuntime) -> Result<(), Fail> {
    are_cut(&rt, rows_to(rt.alloc(), 10)?.as_slice())
}

/// The text is too long for the limit.
#[test]
fn other_limits_are_told(rt: HostRuntime) -> Result<(), Fail> {
    let rows = rows_to(rt.alloc(), 10)?;
    let limits = Limits {
        msg_max: 1,
        ..Limits::default()
    };
    check_parted(&rt, limits, rows.as_slice(), Some(5))
}

/// The reply to bob goes to carol.
#[test]
fn another_client_is_told(rt: HostRuntime) -> Result<(), Fail> {
    let mut rows = rows_to(rt.alloc(), 6)?;
    rows.push(answered(CAROL, 4, 1, None))?;
    check_parted(&rt, Limits::default(), rows.as_slice(), Some(6))
}

#[test]
fn a_client_that_waits_or_is_not_there_makes_no_call(rt: HostRuntime) -> Result<(), Fail> {
    for (client, wanted) in [
        (ALICE, None),
        (BOB, Some(4)),
        (CAROL, Some(4)),
        (3, Some(4)),
    ] {
        let mut rows = rows_to(rt.alloc(), 4)?;
        rows.push(called(client, 0, receive(0, 0)))?;
        check_parted(&rt, Limits::default(), rows.as_slice(), wanted)?;
    }
    Ok(())
}
