// A journal's text is read back.

ghost use Rattle.std.specs.Prelude.{◌≡◌, ◌≤◌, [], ◌∷◌, ◌++◌, IfErr, IfOk, OnOk, IsTrue, length, vec_len};
ghost use Rattle.ipc_call.specs.Limits.{are_in_range};
ghost use Rattle.ipc_journal_text.specs.Gives.{AreEnough, IsWritten, Leaves, LeavesCount, LeavesRead, ReadsBack, Refuses, shown};
ghost use Rattle.ipc_journal_text.specs.JournalText.{text_of};
ghost use Rattle.ipc_journal_text.specs.Reading.{Read, read_client, read_heading, read_limit, read_line, read_lines, read_row, read_text};
ghost use Rattle.ipc_words.specs.Words.{fields_of};

use crate::errors::{Cause, Unread, Wanted};
use crate::heads::client_of;
use crate::printing::print_journal;
use crate::rows::row_of;
use ipc_call::{JournalRow, Limits};
use ipc_creds::Creds;
use ipc_text::limit_of;
use ipc_words::split_field;
use std::alloc::{AllocError, Global};

/// How many clients a namespace may have.
const CLIENTS_MAX: usize = 4096;

/// The line of the heading, and the last one of a limit where all kinds have as many slots.
const HEADING: u64 = 1;

const LAST_LIMIT: u64 = 8;

/// What the text of a journal says: all that replays it.
#[derive(Debug, Drop)]
pub struct Recorded {
    /// The limits of the namespace.
    pub limits: Limits,
    /// The credentials of its clients at the start.
    pub clients: Vec<Creds>,
    /// The rows of its journal, oldest first.
    pub rows: Vec<JournalRow>,
}

/// Reads the text of a journal, whole. It is one only where it is, byte for byte, what the journal that was read is
/// written as: nothing else stands in it, and each number has one form. `Memory` comes where a growth was refused, and no
/// other error for the text of a journal.
pub fn read_journal(alloc: Global, text: &[u8]) -> Result<Recorded, Unread>
    ensures text { IfOk result (λ read. text.now ≡ text_of read.limits read.clients.items read.rows.items) }
    ensures limits { IfOk result (λ read. IsTrue (are_in_range read.limits)) }
    ensures some { IfOk result (λ read. 1 ≤ vec_len read.clients) }
    ensures few { IfOk result (λ read. vec_len read.clients ≤ 4096) }
    ensures back { ReadsBack text.now result }
{
    let mut read = Recorded {
        limits: Limits::default(),
        clients: Vec::new(alloc),
        rows: Vec::new(alloc),
    };
    take_lines(alloc, &mut read, text)?;
    check(alloc, &read, text)?;
    Ok(read)
}

/// Takes what the lines say.
#[tactic(auto, unfolding(crate::specs::Reading::read_text))]
fn take_lines(alloc: Global, read: &mut Recorded, text: &[u8]) -> Result<(), Unread>
    ensures { LeavesRead result (shown read.new) (read_text (shown read.old) text.now) }
{
    let (lines, is_ended) = match text.strip_suffix(b"\n") {
        Some(lines) => (lines, true),
        None => (text, false),
    };
    let number = take_each(alloc, read, lines)?;
    ended(number, is_ended)
}

/// Takes what each line says, and answers how many there are.
fn take_each(alloc: Global, read: &mut Recorded, lines: &[u8]) -> Result<u64, Unread>
    ensures { LeavesCount result (shown read.new) (read_lines 0 (shown read.old) (fields_of 10 lines.now)) (length (fields_of 10 lines.now)) }
{
    let mut number: u64 = 0;
    let mut rest = Some(lines);
    while let Some(text) = rest {
        let (line, others) = split_field(text, b'\n');
        number = number.saturating_add(1);
        if let Err(cause) = take_line(alloc, read, number, line) {
            return Err(Unread::at(number, cause));
        }
        rest = others;
    }
    Ok(number)
}

/// Finds that the last line has a line feed, and is none of those that others must follow.
fn ended(number: u64, is_ended: bool) -> Result<(), Unread>
    ensures { AreEnough number is_ended result }
{
    if !is_ended {
        let wanted = Wanted::LineFeed;
        return Err(Unread::Line {
            line: number,
            wanted,
        });
    }
    if number >= LAST_LIMIT {
        return Ok(());
    }
    let (line, wanted) = (number.saturating_add(1), Wanted::Limit);
    Err(Unread::Line { line, wanted })
}

#[tactic(auto, unfolding(crate::specs::Reading::read_line))]
fn take_line(alloc: Global, read: &mut Recorded, number: u64, line: &[u8]) -> Result<(), Cause>
    ensures { Leaves result (shown read.new) (read_line number (shown read.old) line.now) }
{
    if number == HEADING {
        return take_heading(line);
    }
    if number <= LAST_LIMIT {
        return take_limit(read, line);
    }
    if line.starts_with(b"limit ") && read.clients.is_empty() {
        return take_limit(read, line);
    }
    if line.starts_with(b"client ") && read.rows.is_empty() {
        return take_client(alloc, read, line);
    }
    take_row(alloc, read, line)
}

fn take_heading(line: &[u8]) -> Result<(), Cause>
    ensures { (read : Read) → Leaves result read (read_heading read line.now) }
{
    if line == b"ipcsh journal 1".as_slice() {
        Ok(())
    } else {
        Err(Cause::Wanted(Wanted::Heading))
    }
}

fn take_limit(read: &mut Recorded, line: &[u8]) -> Result<(), Cause>
    ensures { Leaves result (shown read.new) (read_limit (shown read.old) line.now) }
{
    let Some(words) = line.strip_prefix(b"limit ") else {
        return Err(Cause::Wanted(Wanted::Limit));
    };
    let Some((limit, value)) = limit_of(words) else {
        return Err(Cause::Wanted(Wanted::Limit));
    };
    read.limits = read.limits.with_limit(limit, value);
    Ok(())
}

fn take_client(alloc: Global, read: &mut Recorded, line: &[u8]) -> Result<(), Cause>
    ensures { Leaves result (shown read.new) (read_client (shown read.old) line.now) }
{
    if read.clients.len() == CLIENTS_MAX {
        return Err(Cause::Wanted(Wanted::NoClient));
    }
    let creds = client_of(alloc, line)?;
    Ok(add(&mut read.clients, creds)?)
}

fn take_row(alloc: Global, read: &mut Recorded, line: &[u8]) -> Result<(), Cause>
    ensures { Leaves result (shown read.new) (read_row (shown read.old) line.now) }
{
    if read.clients.is_empty() {
        return Err(Cause::Wanted(Wanted::Client));
    }
    let row = row_of(alloc, line)?;
    Ok(add(&mut read.rows, row)?)
}

fn add<T: Drop>(items: &mut Vec<T>, item: T) -> Result<(), AllocError>
    ensures { OnOk result (items.new.items ≡ items.old.items ++ item ∷ []) }
{
    items.push(item)?;
    Ok(())
}

/// Finds that what was read can be replayed, and is written as the text.
fn check(alloc: Global, read: &Recorded, text: &[u8]) -> Result<(), Unread>
    ensures text { OnOk result (text.now ≡ text_of read.now.limits read.now.clients.items read.now.rows.items) }
    ensures limits { OnOk result (IsTrue (are_in_range read.now.limits)) }
    ensures some { OnOk result (1 ≤ vec_len read.now.clients) }
    ensures few { OnOk result (vec_len read.now.clients ≤ 4096) }
    ensures refused { IfErr result (λ e. Refuses e (IsWritten (shown read.now) text.now)) }
{
    if !read.limits.in_range() {
        return Err(ends_before(text, Wanted::Limit));
    }
    if read.clients.is_empty() || read.clients.len() > CLIENTS_MAX {
        return Err(ends_before(text, Wanted::Client));
    }
    let mut written = String::new(alloc);
    print_journal(
        &mut written,
        &read.limits,
        read.clients.as_slice(),
        read.rows.as_slice(),
    )?;
    if written.as_bytes() == text {
        return Ok(());
    }
    Err(parting(alloc, written.as_bytes(), text))
}

/// That the text ends before something that is expected.
fn ends_before(text: &[u8], wanted: Wanted) -> Unread {
    let count = text.iter().filter(|byte| **byte == b'\n').count() as u64;
    let line = count.saturating_add(1);
    Unread::Line { line, wanted }
}

/// The first line that is written otherwise.
fn parting(alloc: Global, written: &[u8], text: &[u8]) -> Unread {
    let forms = written.split(|byte| *byte == b'\n');
    let lines = text.split(|byte| *byte == b'\n');
    let mut line: u64 = 0;
    for (form, found) in forms.zip(lines) {
        line = line.saturating_add(1);
        if form != found {
            return form_at(alloc, line, form);
        }
    }
    ends_before(text, Wanted::Row)
}

fn form_at(alloc: Global, line: u64, form: &[u8]) -> Unread {
    let form = str::from_utf8(form).unwrap_or("");
    match String::from_str(alloc, form) {
        Ok(form) => Unread::Form { line, form },
        Err(_) => Unread::Memory,
    }
}
