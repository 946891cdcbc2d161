// A journal as text.

ghost use Rattle.std.specs.Prelude.{◌≡◌, ◌++◌, ◌<◌, ◌≤◌, ◌^◌, OnOk, flat_map, length, string_bytes};
ghost use Rattle.ipc_journal_text.specs.JournalText.{ending_text, head_lines as lines_before, heading_text, limit_text, message_limits, other_limits, row_text, slot_limits, text_of};

use crate::calls::print_call;
use crate::credentials::print_clients;
use ipc_call::{JournalRow, Limits, Memory, Rule};
use ipc_creds::Creds;
use std::fmt::Write;

/// Appends the journal with these rows, of a namespace with these limits and clients, by their credentials at the start.
/// `Memory` comes where a growth was refused, and a part of the text may then stand in `text`; so with each of the
/// printers.
pub fn print_journal(
    text: &mut String,
    limits: &Limits,
    clients: &[Creds],
    rows: &[JournalRow],
) -> Result<(), Memory>
    requires { length clients.now ≤ 4096 }
    ensures { OnOk result (string_bytes text.new ≡ string_bytes text.old ++ text_of limits.now clients.now rows.now) }
{
    print_heading(text)?;
    print_slot_limits(text, limits)?;
    print_message_limits(text, limits)?;
    print_other_limits(text, limits)?;
    print_clients(text, 0, clients)?;
    print_rows(text, rows)
}

#[tactic(auto, unfolding(crate::specs::JournalText::heading_text))]
fn print_heading(text: &mut String) -> Result<(), Memory>
    ensures { OnOk result (string_bytes text.new ≡ string_bytes text.old ++ heading_text) }
{
    text.push_str("ipcsh journal 1\n")
}

/// How many lines stand before those of the clients: the heading and those of the limits.
pub fn head_lines(limits: &Limits) -> u64
    ensures lines { result ≡ lines_before limits.now }
    ensures few { result ≤ 10 }
{
    if limits.queues == limits.sets && limits.sets == limits.segments {
        8
    } else {
        10
    }
}

#[tactic(auto, unfolding(crate::specs::JournalText::slot_limits))]
fn print_slot_limits(text: &mut String, limits: &Limits) -> Result<(), Memory>
    ensures { OnOk result (string_bytes text.new ≡ string_bytes text.old ++ slot_limits limits.now) }
{
    if limits.queues == limits.sets && limits.sets == limits.segments {
        return print_limit(text, "slots", limits.queues);
    }
    print_limit(text, "queues", limits.queues)?;
    print_limit(text, "sets", limits.sets)?;
    print_limit(text, "segments", limits.segments)
}

#[tactic(auto, unfolding(crate::specs::JournalText::message_limits))]
fn print_message_limits(text: &mut String, limits: &Limits) -> Result<(), Memory>
    ensures { OnOk result (string_bytes text.new ≡ string_bytes text.old ++ message_limits limits.now) }
{
    print_limit(text, "first-seq", u32::from(limits.first_seq))?;
    print_limit(text, "msgmax", limits.msg_max)?;
    print_limit(text, "msgmnb", limits.msg_mnb)
}

#[tactic(auto, unfolding(crate::specs::JournalText::other_limits))]
fn print_other_limits(text: &mut String, limits: &Limits) -> Result<(), Memory>
    ensures { OnOk result (string_bytes text.new ≡ string_bytes text.old ++ other_limits limits.now) }
{
    print_limit(text, "semmsl", limits.sem_msl)?;
    print_limit(text, "semopm", limits.sem_opm)?;
    print_limit(text, "shmmax", limits.shm_max)
}

#[tactic(auto, unfolding(crate::specs::JournalText::limit_text))]
fn print_limit(text: &mut String, name: &str, value: u32) -> Result<(), Memory>
    ensures { OnOk result (string_bytes text.new ≡ string_bytes text.old ++ limit_text name.now value) }
{
    write!(text, "limit {name} {value}\n")
}

/// Appends the lines of rows.
pub fn print_rows(text: &mut String, rows: &[JournalRow]) -> Result<(), Memory>
    ensures { OnOk result (string_bytes text.new ≡ string_bytes text.old ++ flat_map row_text rows.now) }
{
    for row in rows {
        print_row(text, row)?;
    }
    Ok(())
}

/// Appends the line of a row.
pub fn print_row(text: &mut String, row: &JournalRow) -> Result<(), Memory>
    ensures { OnOk result (string_bytes text.new ≡ string_bytes text.old ++ row_text row.now) }
{
    match row {
        JournalRow::Called { client, now, call } => {
            write!(text, "at {now} client {client}: ")?;
            print_call(text, call)?;
            text.push_str("\n")
        }
        JournalRow::Answered {
            client,
            place,
            turn,
            rule,
        } => {
            write!(text, "  {place}.{turn} client {client}: ")?;
            print_ending(text, *rule)
        }
    }
}

fn print_ending(text: &mut String, rule: Option<Rule>) -> Result<(), Memory>
    ensures { OnOk result (string_bytes text.new ≡ string_bytes text.old ++ ending_text rule) }
{
    let Some(rule) = rule else {
        return text.push_str("granted\n");
    };
    let (error, rule) = (rule.error(), rule.name());
    let (number, error) = (error.number(), error.name());
    write!(text, "error {number} {error} {rule}\n")
}
