// How far rows are a journal, told in two ways.

use crate::opening::{Ends, limits, opened, users};
use ipc_space::{JournalRow, Replayed, Space, replay};
use std::alloc::Global;
use std::io;

/// By their replay: how many begin a journal, None where they are one.
pub fn by_replay(alloc: Global, rows: &[JournalRow]) -> io::Result<Option<u64>> {
    match replay(limits(), users(alloc)?, rows)? {
        Replayed::Same(space) => Ok(compared(space.journal(), rows)),
        Replayed::Differs(count) => Ok(Some(count)),
    }
}

/// The same, by the journal of all calls among them up to the first that its client may not make. The rows of a journal
/// tell its events, so where it parts from the rows, so does every journal.
pub fn by_calls(alloc: Global, rows: &[JournalRow]) -> io::Result<Option<u64>> {
    let mut space = opened(alloc)?;
    after_calls(&mut space, rows)
}

fn after_calls(space: &mut Space, rows: &[JournalRow]) -> io::Result<Option<u64>> {
    let mut ends = Ends::default();
    for row in rows {
        if let JournalRow::Called { client, now, call } = row {
            if !ends.call(space, *client, *now, call.copy()?)? {
                break;
            }
        }
    }
    Ok(compared(space.journal(), rows))
}

/// How many rows two lists begin with alike, None where they are alike.
fn compared(journal: &[JournalRow], rows: &[JournalRow]) -> Option<u64> {
    for count in 0..rows.len() {
        if journal.get(count) != rows.get(count) {
            return Some(count as u64);
        }
    }
    if journal.len() == rows.len() {
        None
    } else {
        Some(rows.len() as u64)
    }
}
