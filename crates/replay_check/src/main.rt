//! Ten thousand random calls of eight clients, those on processes and threads among them: the replay of their journal
//! gives it again. Then each row of a shorter journal is changed in turn, in several ways, and the replay tells where the
//! rows first are no journal's.
#![tactic(auto)]

mod changes;
mod opening;
mod parting;

use changes::{CHANGES, Change, changed};
use ipc_space::{Call, JournalRow, Memory, Space};
use opening::{Ends, failed, opened};
use parting::{by_calls, by_replay};
use std::alloc::Global;
use std::io;
use test_support::any_calls::{Choice, any_call, any_process_call};
use test_support::numbers::Numbers;

/// How many calls are made.
const CALLS: u64 = 10_000;

/// How many rows are changed, at least, where the journal has so many.
const CHANGED: usize = 600;

/// A client that may call. One always may: the last makes no call that waits.
fn any_client(numbers: &mut Numbers, space: &Space) -> u32 {
    let first = numbers.below(8);
    for step in 0..8 {
        let client = first.wrapping_add(step) % 8;
        if !space.is_waiting(client) {
            return client;
        }
    }
    7
}

/// A client's next call.
fn call_of(
    alloc: Global,
    numbers: &mut Numbers,
    space: &Space,
    client: u32,
) -> Result<Call, Memory> {
    let has_ended = space.has_exited(client);
    if numbers.once_in(if has_ended { 3 } else { 40 }) {
        return any_process_call(alloc, numbers, has_ended);
    }
    let choice = if client == 7 {
        Choice::Control
    } else {
        Choice::Any
    };
    let objects = space.lines()?;
    any_call(alloc, numbers, objects.as_slice(), choice)
}

/// Makes random calls, one a second.
fn make_calls(alloc: Global, space: &mut Space) -> io::Result<Ends> {
    let mut numbers = Numbers::new(1);
    let mut ends = Ends::default();
    for now in 0..CALLS {
        let client = any_client(&mut numbers, space);
        let asked = call_of(alloc, &mut numbers, space, client)?;
        if !ends.call(space, client, now, asked)? {
            return Err(failed());
        }
    }
    Ok(ends)
}

/// The rows of the first events.
fn first_rows(rows: &[JournalRow]) -> &[JournalRow] {
    for end in CHANGED.min(rows.len())..rows.len() {
        if !is_answer(&rows[end]) {
            return &rows[..end];
        }
    }
    rows
}

fn is_answer(row: &JournalRow) -> bool {
    matches!(row, JournalRow::Answered { .. })
}

/// What came of changed rows.
#[derive(Clone, Copy, Debug, Default)]
struct Found {
    /// The rows are still a journal.
    same: u64,
    /// They are none from the changed row on, or from the second of a doubled one.
    here: u64,
    /// They are none from a later row on.
    later: u64,
}

/// What must come of a change, None where it depends on the calls behind it.
fn wanted(row: &JournalRow, at: u64, change: Change) -> Option<Option<u64>> {
    match (change, row) {
        (Change::Doubled, _) => Some(Some(at.saturating_add(1))),
        (_, JournalRow::Answered { .. }) => Some(Some(at)),
        // The row of a call has no rule, and the time of none of these decides whether a deadline is reached.
        (Change::Place | Change::Rule, _) => Some(None),
        _ => None,
    }
}

impl Found {
    /// Replays the rows with one of them changed.
    fn try_change(
        &mut self,
        alloc: Global,
        rows: &[JournalRow],
        at: usize,
        change: Change,
    ) -> io::Result<()> {
        let Some(row) = rows.get(at) else {
            return Err(failed());
        };
        let others = changed(alloc, rows, at, change)?;
        let wanted = wanted(row, at as u64, change);
        let found = parted(alloc, others.as_slice(), wanted)?;
        self.add(found, at as u64, change);
        Ok(())
    }

    fn add(&mut self, found: Option<u64>, at: u64, change: Change) {
        let first = if change == Change::Doubled { 1 } else { 0 };
        match found {
            None => self.same = self.same.saturating_add(1),
            Some(count) if count == at.saturating_add(first) => {
                self.here = self.here.saturating_add(1)
            }
            Some(_) => self.later = self.later.saturating_add(1),
        }
    }
}

/// How many of the rows begin a journal, None where they are one. Both ways must tell the same, and what is wanted.
fn parted(
    alloc: Global,
    rows: &[JournalRow],
    wanted: Option<Option<u64>>,
) -> io::Result<Option<u64>> {
    let found = by_replay(alloc, rows)?;
    if found != by_calls(alloc, rows)? || found != wanted.unwrap_or(found) {
        return Err(failed());
    }
    Ok(found)
}

/// Changes each of the rows in each way.
fn try_changes(rt: &HostRuntime, rows: &[JournalRow]) -> io::Result<()> {
    println!(rt; "changed rows: {}", rows.len())?;
    for change in CHANGES {
        let mut found = Found::default();
        for at in 0..rows.len() {
            found.try_change(rt.alloc(), rows, at, change)?;
        }
        let Found { same, here, later } = found;
        println!(rt; "{change:?}: {here} differ there, {later} later, {same} are a journal")?;
    }
    Ok(())
}

/// Makes the calls, and replays their journal, and then the changed rows.
fn run(rt: &HostRuntime, space: &mut Space) -> io::Result<()> {
    let alloc = rt.alloc();
    let ends = make_calls(alloc, space)?;
    println!(rt; "{CALLS} calls: {ends:?}")?;
    let rows = space.journal();
    println!(rt; "{} rows: {:?}", rows.len(), by_replay(alloc, rows)?)?;
    try_changes(rt, first_rows(rows))
}

fn main(rt: HostRuntime) -> io::Result<()> {
    let mut space = opened(rt.alloc())?;
    run(&rt, &mut space)
}
