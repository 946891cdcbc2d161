// Where a journal differs, in words.

ghost use Rattle.std.specs.Prelude.{◌≡◌, ◌++◌, ◌≤◌, OnOk, length, option_map, slice_get, string_bytes};
ghost use Rattle.ipc_history.specs.History.{rows_of, run};
ghost use Rattle.ipc_journal_text.specs.JournalText.{head_lines as lines_before};
ghost use Rattle.ipc_journal_replay.specs.Telling.{difference_text, found_row, found_text, given_text, no_call, place_text, why_none};

use ipc_call::{JournalRow, Limits, Memory};
use ipc_journal_text::{head_lines, print_row};
use ipc_space::Space;
use std::fmt::Write;

/// Appends where rows, of which so many begin the journal of this namespace, differ from it: the line of their text, what
/// stands there, and what the definitions give. `Memory` comes where a growth was refused, and a part of the text may then
/// stand in `text`.
pub fn print_difference(
    text: &mut String,
    rows: &[JournalRow],
    count: usize,
    space: &Space,
) -> Result<(), Memory>
    requires { count ≤ length rows.now }
    ensures { OnOk result (string_bytes text.new ≡ string_bytes text.old ++ difference_text (lines_before (run space.now).limits) (length space.now.clients) rows.now count (rows_of space.now)) }
{
    let clients = space.clients();
    let found = row_at(rows, count);
    print_place(text, &space.limits(), clients, count)?;
    print_found(text, found)?;
    print_given(text, clients, row_at(space.journal(), count), found)
}

fn row_at(rows: &[JournalRow], at: usize) -> Option<&JournalRow>
    ensures { option_map (λ r. r.now) result ≡ slice_get rows.now at }
{
    rows.get(at)
}

#[tactic(auto, unfolding(crate::specs::Telling::place_text))]
fn print_place(text: &mut String, limits: &Limits, clients: u32, count: usize) -> Result<(), Memory>
    requires { count ≤ 9223372036854775807 }
    ensures { OnOk result (string_bytes text.new ≡ string_bytes text.old ++ place_text (lines_before limits.now) clients count) }
{
    let line = head_lines(limits) + 1 + u64::from(clients) + count as u64;
    let row = count + 1;
    write!(text, "line {line}, row {row}: the journal differs\n")
}

#[tactic(auto, unfolding(crate::specs::Telling::found_text))]
fn print_found(text: &mut String, row: Option<&JournalRow>) -> Result<(), Memory>
    ensures { OnOk result (string_bytes text.new ≡ string_bytes text.old ++ found_text (option_map (λ r. r.now) row.entry)) }
{
    text.push_str("it has:               ")?;
    print_found_row(text, row)
}

fn print_found_row(text: &mut String, row: Option<&JournalRow>) -> Result<(), Memory>
    ensures { OnOk result (string_bytes text.new ≡ string_bytes text.old ++ found_row (option_map (λ r. r.now) row.entry)) }
{
    match row {
        Some(row) => print_row(text, row),
        None => text.push_str("nothing more\n"),
    }
}

#[tactic(auto, unfolding(crate::specs::Telling::given_text))]
fn print_given(
    text: &mut String,
    clients: u32,
    row: Option<&JournalRow>,
    found: Option<&JournalRow>,
) -> Result<(), Memory>
    ensures { OnOk result (string_bytes text.new ≡ string_bytes text.old ++ given_text clients (option_map (λ r. r.now) row.entry) (option_map (λ r. r.now) found.entry)) }
{
    text.push_str("the definitions give: ")?;
    match row {
        Some(row) => print_row(text, row),
        None => print_why(text, clients, found),
    }
}

/// Appends why no row that stands where an event has all its answers is one of the next.
fn print_why(text: &mut String, clients: u32, row: Option<&JournalRow>) -> Result<(), Memory>
    ensures { OnOk result (string_bytes text.new ≡ string_bytes text.old ++ why_none clients (option_map (λ r. r.now) row.entry)) }
{
    match row {
        Some(JournalRow::Called { client, .. }) => print_no_call(text, clients, *client),
        Some(JournalRow::Answered { .. }) => text.push_str("no answer: none is due\n"),
        None => text.push_str("nothing more\n"),
    }
}

fn print_no_call(text: &mut String, clients: u32, client: u32) -> Result<(), Memory>
    ensures { OnOk result (string_bytes text.new ≡ string_bytes text.old ++ no_call clients client) }
{
    if client < clients {
        write!(text, "no call, since client {client} waits\n")
    } else {
        write!(text, "no call, since there is no client {client}\n")
    }
}
