// The rows that a script prints.

ghost use Rattle.std.specs.Prelude.{◌≡◌, ◌++◌, codes, decimal, Ok, OnOk, string_bytes};
ghost use Rattle.ipc_text.specs.Rows.{bad_row, error_text, name_of_reason, outcome_text, reply_row, row_head, waits_row};
ghost use Rattle.ipc_text.specs.Rows.{message_text, queue_text, perm_text, key_text, mode_text, owners_text, contents_text, times_text};
ghost use Rattle.ipc_text.specs.Rows.{bytes_text, hex_text, memory_text, owned_text, segment_mode as mode_with_mark, segment_text, set_text, values_text};
ghost use Rattle.ipc_text.specs.Rows.{list_text, listed_text, object_rows, row_text};

use crate::reasons::Reason;
use ipc_call::{
    Answer, Errno, Listed, Memory, Mode, Outcome, Perm, QueueStatus, Reply, Row, SegmentStatus,
    SetStatus, Status,
};
use number_text::{print_number, print_signed};
use std::fmt::Write;

/// Of the mode of a segment: it is removed with its last attachment (shmctl(2)).
const SHM_DEST: u16 = 0o1000;

/// Appends the row of a bad line, by its number from 1. `Memory` comes where a growth was refused, and a part of the
/// row may then stand in `rows`; so with each of the printers.
pub fn print_bad(rows: &mut String, line: u64, reason: Reason) -> Result<(), Memory>
    ensures { OnOk result (string_bytes rows.new ≡ string_bytes rows.old ++ bad_row line reason) }
{
    let reason = reason_name(reason);
    write!(rows, "line {line}: {reason}\n")
}

/// Appends the row of a reply to the client of this name: its place and turn, and its answer, or the error with its
/// number, its name (errno(3)) and the rule that decided.
pub fn print_reply(rows: &mut String, name: &str, reply: &Reply) -> Result<(), Memory>
    ensures { OnOk result (string_bytes rows.new ≡ string_bytes rows.old ++ reply_row name.now reply.now) }
{
    match reply {
        Reply::Entered {
            place,
            turn,
            outcome,
        } => {
            print_head(rows, *place, *turn, name)?;
            print_outcome(rows, outcome)
        }
        Reply::Memory => {
            write!(rows, "- {name} ")?;
            print_error(rows, Errno::ENOMEM, "memory")
        }
    }
}

/// Appends the row of a call of the client of this name that waits, by the place of its event.
pub fn print_waits(rows: &mut String, place: u64, name: &str) -> Result<(), Memory>
    ensures { OnOk result (string_bytes rows.new ≡ string_bytes rows.old ++ waits_row place name.now) }
{
    print_head(rows, place, 0, name)?;
    rows.push_str("waits\n")
}

fn print_head(rows: &mut String, place: u64, turn: u32, name: &str) -> Result<(), Memory>
    ensures { OnOk result (string_bytes rows.new ≡ string_bytes rows.old ++ row_head place turn name.now) }
{
    print_number(rows, place)?;
    print_turn(rows, turn)?;
    rows.push_str(name)?;
    rows.push_str(" ")
}

// A turn, which mostly is 0.
fn print_turn(rows: &mut String, turn: u32) -> Result<(), Memory>
    ensures { OnOk result (string_bytes rows.new ≡ string_bytes rows.old ++ (codes "." ++ (decimal turn ++ codes " "))) }
{
    if turn == 0 {
        return rows.push_str(".0 ");
    }
    rows.push_str(".")?;
    print_number(rows, u64::from(turn))?;
    rows.push_str(" ")
}

fn print_outcome(rows: &mut String, outcome: &Outcome) -> Result<(), Memory>
    ensures { OnOk result (string_bytes rows.new ≡ string_bytes rows.old ++ outcome_text outcome.now) }
{
    match outcome {
        Ok(Answer::Id(id)) => print_named(rows, "id ", *id),
        Ok(Answer::Done) => rows.push_str("ok\n"),
        Ok(Answer::Message { mtype, text }) => print_message(rows, *mtype, text.as_slice()),
        Ok(Answer::Status(status)) => print_status(rows, status.get()),
        Ok(Answer::Value(value)) => print_named(rows, "value ", *value),
        Ok(Answer::Values(values)) => print_values(rows, values.as_slice()),
        Ok(Answer::Attached(att)) => print_named(rows, "attached ", *att),
        Ok(Answer::Bytes(bytes)) => print_bytes(rows, bytes.as_slice()),
        Ok(Answer::Rows(listed)) => print_list(rows, listed.as_slice()),
        Err(rule) => print_error(rows, rule.error(), rule.name()),
    }
}

// A word with a space behind it, and a number.
fn print_named(rows: &mut String, word: &str, number: u32) -> Result<(), Memory>
    ensures { OnOk result (string_bytes rows.new ≡ string_bytes rows.old ++ (word.now ++ (decimal number ++ codes "\n"))) }
{
    rows.push_str(word)?;
    print_number(rows, u64::from(number))?;
    rows.push_str("\n")
}

// A listing: how many objects there are, and the line of each.
fn print_list(rows: &mut String, listed: &[Row]) -> Result<(), Memory>
    ensures { OnOk result (string_bytes rows.new ≡ string_bytes rows.old ++ list_text listed.now) }
{
    let count = listed.len();
    write!(rows, "list {count}\n")?;
    for row in listed {
        rows.push_str("  ")?;
        print_row(rows, row)?;
    }
    Ok(())
}

/// Appends the line of an object, and of a semaphore set a further one of its values (GETALL of semctl(2)). The lines
/// are the project's own.
pub fn print_object(rows: &mut String, row: &Row, values: &[u16]) -> Result<(), Memory>
    ensures { OnOk result (string_bytes rows.new ≡ string_bytes rows.old ++ object_rows row.now values.now) }
{
    print_row(rows, row)?;
    match row {
        Row::Set { .. } => print_values(rows, values),
        Row::Queue { .. } | Row::Segment { .. } => Ok(()),
    }
}

fn print_row(rows: &mut String, row: &Row) -> Result<(), Memory>
    ensures { OnOk result (string_bytes rows.new ≡ string_bytes rows.old ++ row_text row.now) }
{
    match *row {
        Row::Queue {
            object,
            cbytes,
            qnum,
        } => {
            print_listed(rows, "q", object, object.mode.bits())?;
            write!(rows, " {cbytes} {qnum}\n")
        }
        Row::Set { object, nsems } => {
            print_listed(rows, "s", object, object.mode.bits())?;
            write!(rows, " {nsems}\n")
        }
        Row::Segment {
            object,
            is_marked,
            size,
            nattch,
        } => {
            print_listed(rows, "m", object, segment_mode(object.mode, is_marked))?;
            write!(rows, " {size} {nattch}\n")
        }
    }
}

// What the line of an object begins with, with this mode.
fn print_listed(rows: &mut String, kind: &str, object: Listed, mode: u16) -> Result<(), Memory>
    ensures { OnOk result (string_bytes rows.new ≡ string_bytes rows.old ++ listed_text kind.now object mode) }
{
    let Listed { key, id, uid, .. } = object;
    write!(rows, "{kind} ")?;
    print_key(rows, key)?;
    write!(rows, " {id} {uid} ")?;
    print_mode(rows, mode)
}

fn print_message(rows: &mut String, mtype: i64, text: &[u8]) -> Result<(), Memory>
    ensures { OnOk result (string_bytes rows.new ≡ string_bytes rows.old ++ message_text mtype text.now) }
{
    rows.push_str("message ")?;
    print_signed(rows, mtype)?;
    print_hex(rows, text)
}

fn print_bytes(rows: &mut String, bytes: &[u8]) -> Result<(), Memory>
    ensures { OnOk result (string_bytes rows.new ≡ string_bytes rows.old ++ bytes_text bytes.now) }
{
    rows.push_str("bytes")?;
    print_hex(rows, bytes)
}

fn print_hex(rows: &mut String, bytes: &[u8]) -> Result<(), Memory>
    ensures { OnOk result (string_bytes rows.new ≡ string_bytes rows.old ++ hex_text bytes.now) }
{
    let digits = hex::encode(*rows.allocator(), bytes)?;
    rows.push_str(" x:")?;
    rows.push_str(digits.as_str())?;
    rows.push_str("\n")
}

fn print_values(rows: &mut String, values: &[u16]) -> Result<(), Memory>
    ensures { OnOk result (string_bytes rows.new ≡ string_bytes rows.old ++ values_text values.now) }
{
    rows.push_str("values")?;
    for value in values {
        rows.push_str(" ")?;
        print_number(rows, u64::from(*value))?;
    }
    rows.push_str("\n")
}

/// Appends the state of an object, by its kind.
fn print_status(rows: &mut String, status: &Status) -> Result<(), Memory>
    ensures { OnOk result (string_bytes rows.new ≡ string_bytes rows.old ++ outcome_text (Ok (Answer.Status status.now))) }
{
    match *status {
        Status::Queue(queue) => print_queue(rows, queue),
        Status::Set(set) => print_set(rows, set),
        Status::Segment(segment) => print_segment(rows, segment),
    }
}

fn print_queue(rows: &mut String, status: QueueStatus) -> Result<(), Memory>
    ensures { OnOk result (string_bytes rows.new ≡ string_bytes rows.old ++ queue_text status) }
{
    print_perm(rows, "queue", &status.perm)?;
    print_contents(rows, status)
}

fn print_set(rows: &mut String, status: SetStatus) -> Result<(), Memory>
    ensures { OnOk result (string_bytes rows.new ≡ string_bytes rows.old ++ set_text status) }
{
    let SetStatus {
        perm,
        nsems,
        otime,
        ctime,
    } = status;
    print_perm(rows, "set", &perm)?;
    write!(rows, " nsems {nsems} otime {otime} ctime {ctime}\n")
}

fn print_segment(rows: &mut String, status: SegmentStatus) -> Result<(), Memory>
    ensures { OnOk result (string_bytes rows.new ≡ string_bytes rows.old ++ segment_text status) }
{
    let SegmentStatus {
        perm,
        is_marked,
        atime,
        dtime,
        ctime,
        ..
    } = status;
    print_owned(rows, "segment", &perm, segment_mode(perm.mode, is_marked))?;
    print_memory(rows, status)?;
    print_times(rows, ("atime", atime), ("dtime", dtime), ctime)
}

// The mode of a segment, with SHM_DEST where it is marked.
fn segment_mode(mode: Mode, is_marked: bool) -> u16
    ensures { result ≡ mode_with_mark mode is_marked }
{
    let mode = mode.bits();
    if is_marked { SHM_DEST + mode } else { mode }
}

fn print_memory(rows: &mut String, status: SegmentStatus) -> Result<(), Memory>
    ensures { OnOk result (string_bytes rows.new ≡ string_bytes rows.old ++ memory_text status) }
{
    let SegmentStatus {
        size,
        nattch,
        cpid,
        lpid,
        ..
    } = status;
    write!(rows, " size {size} nattch {nattch} cpid {cpid} lpid {lpid}")
}

fn print_perm(rows: &mut String, kind: &str, perm: &Perm) -> Result<(), Memory>
    ensures { OnOk result (string_bytes rows.new ≡ string_bytes rows.old ++ perm_text kind.now perm.now) }
{
    print_owned(rows, kind, perm, perm.mode.bits())
}

// What a state begins with, with this mode.
fn print_owned(rows: &mut String, kind: &str, perm: &Perm, mode: u16) -> Result<(), Memory>
    ensures { OnOk result (string_bytes rows.new ≡ string_bytes rows.old ++ owned_text kind.now perm.now mode) }
{
    write!(rows, "{kind} key ")?;
    print_key(rows, perm.key)?;
    print_owners(rows, perm)?;
    rows.push_str(" mode ")?;
    print_mode(rows, mode)
}

#[tactic(auto, unfolding(crate::specs::Rows::key_text))]
fn print_key(rows: &mut String, key: u32) -> Result<(), Memory>
    ensures { OnOk result (string_bytes rows.new ≡ string_bytes rows.old ++ key_text key) }
{
    write!(rows, "0x{key:08x}")
}

#[tactic(auto, unfolding(crate::specs::Rows::mode_text))]
fn print_mode(rows: &mut String, mode: u16) -> Result<(), Memory>
    ensures { OnOk result (string_bytes rows.new ≡ string_bytes rows.old ++ mode_text mode) }
{
    write!(rows, "{mode:04o}")
}

fn print_owners(rows: &mut String, perm: &Perm) -> Result<(), Memory>
    ensures { OnOk result (string_bytes rows.new ≡ string_bytes rows.old ++ owners_text perm.now) }
{
    let Perm {
        uid,
        gid,
        cuid,
        cgid,
        ..
    } = *perm;
    write!(rows, " uid {uid} gid {gid} cuid {cuid} cgid {cgid}")
}

fn print_contents(rows: &mut String, status: QueueStatus) -> Result<(), Memory>
    ensures { OnOk result (string_bytes rows.new ≡ string_bytes rows.old ++ contents_text status) }
{
    let QueueStatus {
        cbytes,
        qnum,
        qbytes,
        lspid,
        lrpid,
        stime,
        rtime,
        ctime,
        ..
    } = status;
    write!(rows, " cbytes {cbytes} qnum {qnum} qbytes {qbytes}")?;
    write!(rows, " lspid {lspid} lrpid {lrpid}")?;
    print_times(rows, ("stime", stime), ("rtime", rtime), ctime)
}

// The times of two calls by their names, and that of the last change.
fn print_times(
    rows: &mut String,
    first: (&str, u64),
    second: (&str, u64),
    ctime: u64,
) -> Result<(), Memory>
    ensures { OnOk result (string_bytes rows.new ≡ string_bytes rows.old ++ times_text first.entry.0.now first.entry.1 second.entry.0.now second.entry.1 ctime) }
{
    let (first, first_time) = first;
    let (second, second_time) = second;
    write!(
        rows,
        " {first} {first_time} {second} {second_time} ctime {ctime}\n"
    )
}

fn print_error(rows: &mut String, error: Errno, cause: &str) -> Result<(), Memory>
    ensures { OnOk result (string_bytes rows.new ≡ string_bytes rows.old ++ error_text error cause.now) }
{
    rows.push_str("error ")?;
    print_number(rows, u64::from(error.number()))?;
    rows.push_str(" ")?;
    rows.push_str(error.name())?;
    rows.push_str(" ")?;
    rows.push_str(cause)?;
    rows.push_str("\n")
}

#[tactic(auto, unfolding(crate::specs::Rows::name_of_reason))]
fn reason_name(reason: Reason) -> &'static str
    ensures { result.now ≡ name_of_reason reason }
{
    match reason {
        Reason::TooLong => "too-long",
        Reason::BadLine => "bad-line",
        Reason::Late => "late",
        Reason::Twice => "twice",
        Reason::Many => "many",
        Reason::UnknownClient => "unknown-client",
        Reason::BadCommand => "bad-command",
        Reason::Busy => "busy",
    }
}
