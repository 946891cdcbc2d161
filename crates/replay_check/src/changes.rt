// Journals of which one row is changed.

use ipc_space::{Call, JournalRow, Memory, Rule};
use std::alloc::Global;

/// What is done to a row. Of a call the place and the turn stand for its time and what is asked.
#[derive(Clone, Copy, Debug, PartialEq, Eq)]
pub enum Change {
    /// It names another client.
    Client,
    /// An answer has another place, a call another time.
    Place,
    /// An answer has another turn, a call is another.
    Turn,
    /// An answer has another rule, or one for none, or none for one. A call stays.
    Rule,
    /// It is left out.
    Dropped,
    /// It stands twice.
    Doubled,
}

/// All of them.
pub const CHANGES: [Change; 6] = [
    Change::Client,
    Change::Place,
    Change::Turn,
    Change::Rule,
    Change::Dropped,
    Change::Doubled,
];

/// The rows with a change of the one at an index.
pub fn changed(
    alloc: Global,
    rows: &[JournalRow],
    at: usize,
    change: Change,
) -> Result<Vec<JournalRow>, Memory> {
    let mut all = Vec::new(alloc);
    for index in 0..rows.len() {
        let change = if index == at { Some(change) } else { None };
        add(&mut all, &rows[index], change)?;
    }
    Ok(all)
}

/// Adds a row as the change leaves it.
fn add(all: &mut Vec<JournalRow>, row: &JournalRow, change: Option<Change>) -> Result<(), Memory> {
    let times = match change {
        Some(Change::Dropped) => 0,
        Some(Change::Doubled) => 2,
        _ => 1,
    };
    for _ in 0..times {
        all.push(row_with(row, change)?)?;
    }
    Ok(())
}

/// The row with another client, place, turn or rule.
fn row_with(row: &JournalRow, change: Option<Change>) -> Result<JournalRow, Memory> {
    match row {
        JournalRow::Called { client, now, call } => {
            let client = client_with(*client, change);
            let now = place_with(*now, change);
            let call = call_with(call, change)?;
            Ok(JournalRow::Called { client, now, call })
        }
        JournalRow::Answered {
            client,
            place,
            turn,
            rule,
        } => Ok(JournalRow::Answered {
            client: client_with(*client, change),
            place: place_with(*place, change),
            turn: turn_with(*turn, change),
            rule: rule_with(*rule, change),
        }),
    }
}

fn client_with(client: u32, change: Option<Change>) -> u32 {
    if change == Some(Change::Client) {
        client.wrapping_add(1) % 8
    } else {
        client
    }
}

fn place_with(place: u64, change: Option<Change>) -> u64 {
    if change == Some(Change::Place) {
        place.wrapping_add(1)
    } else {
        place
    }
}

fn turn_with(turn: u32, change: Option<Change>) -> u32 {
    if change == Some(Change::Turn) {
        turn.wrapping_add(1)
    } else {
        turn
    }
}

fn call_with(call: &Call, change: Option<Change>) -> Result<Call, Memory> {
    if change == Some(Change::Turn) {
        Ok(Call::Exit)
    } else {
        call.copy()
    }
}

fn rule_with(rule: Option<Rule>, change: Option<Change>) -> Option<Rule> {
    match (change, rule) {
        (Some(Change::Rule), None) => Some(Rule::NoKey),
        (Some(Change::Rule), Some(_)) => None,
        _ => rule,
    }
}
