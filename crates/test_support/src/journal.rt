//! Rows of a journal.

use ipc_call::{Call, JournalRow, Rule};

/// The row of a client's call at a time.
pub fn called(client: u32, now: u64, call: Call) -> JournalRow {
    JournalRow::Called { client, now, call }
}

/// The row of a reply.
pub fn answered(client: u32, place: u64, turn: u32, rule: Option<Rule>) -> JournalRow {
    JournalRow::Answered {
        client,
        place,
        turn,
        rule,
    }
}

/// How many calls of a client are among the rows.
pub fn calls_of(rows: &[JournalRow], number: u32) -> u64 {
    let calls = rows.iter().filter(
        |row| matches!(*row, JournalRow::Called { client, .. } if *client == number),
    );
    calls.count() as u64
}

/// How many refusals of a client's calls are among the rows.
pub fn refusals_of(rows: &[JournalRow], number: u32) -> u64 {
    let refusals = rows.iter().filter(
        |row| matches!(*row, JournalRow::Answered { client, rule, .. } if *client == number && rule.is_some()),
    );
    refusals.count() as u64
}
