//! Rows with notes above and below them.

ghost use Rattle.std.specs.Prelude.{◌≡◌, ◌-◌, ◌<◌, ◌≤◌, ◌++◌, [], ◌∷◌, IfOk, OnOk, filter, length, nat_eq, string_bytes, take};
ghost use Rattle.std.specs.List.{starts_with};
ghost use Rattle.ipc_words.specs.Lines.{split};
ghost use Rattle.row_notes.specs.Merging.{
  IsExplained,
  beyond,
  explained,
  is_end,
  is_of,
  margin_below,
  note_lines,
  notes_text,
  of_row,
};
ghost use Rattle.row_notes.specs.Noted.{head_text, left_of, next_head};

use crate::notes::{Head, Notes, NotesLeft};
use ipc_words::split_line;
use number_text::print_number;
use std::alloc::{AllocError, Global};

/// What stands before each line of a note above its row.
const ABOVE: &[u8] = b"> ";

/// What stands before each line of a note below its row, and at the end.
const BELOW: &[u8] = b"    ";

/// The rows with notes: each stands above or below the row that begins with its head, each of its lines behind `> ` or behind four
/// blanks. From the first note above whose row doesn't come, such notes are left out; so those below, but for those at the end. The
/// error comes only where an allocation fails.
pub fn merge(
    alloc: Global,
    rows: &[u8],
    above: &Notes,
    below: &Notes,
) -> Result<Vec<u8>, AllocError>
    ensures text { IfOk result (λ out. out.items ≡ explained rows.now above.now below.now) }
    ensures kept { IfOk result (λ out. IsExplained rows.now out.items) }
{
    let mut out = Vec::new(alloc);
    let mut upper = String::new(alloc);
    let mut lower = String::new(alloc);
    let mut left_above = above.all();
    let mut left_below = below.all();
    let mut rest = rows;
    print_next(&mut upper, left_above)?;
    print_next(&mut lower, left_below)?;
    while let Some((row, others)) = split_line(rest) {
        left_above = print_notes(&mut out, &mut upper, ABOVE, row, left_above)?;
        print_first(&mut out, rest, others)?;
        left_below = print_notes(&mut out, &mut lower, BELOW, row, left_below)?;
        rest = others;
    }
    out.extend_from_slice(rest)?;
    if rest.is_empty() {
        print_last(&mut out, left_below)?;
    }
    Ok(out)
}

/// Appends what stands before the others in a text: its first line with the line feed.
fn print_first(out: &mut Vec<u8>, text: &[u8], others: &[u8]) -> Result<(), AllocError>
    requires { length others.now ≤ length text.now }
    ensures { OnOk result (out.new.items ≡ out.old.items ++ take (length text.now - length others.now) text.now) }
{
    let first = &text[..text.len() - others.len()];
    out.extend_from_slice(first)
}

/// Appends the notes at the front that are of the row, and answers those that are left. `head` is what the row of the first of
/// these begins with.
fn print_notes<'n>(
    out: &mut Vec<u8>,
    head: &mut String,
    margin: &[u8],
    row: &[u8],
    notes: NotesLeft<'n>,
) -> Result<NotesLeft<'n>, AllocError>
    requires { string_bytes head.old ≡ next_head (left_of notes) }
    ensures text { OnOk result (out.new.items ≡ out.old.items ++ notes_text margin.now (of_row row.now (left_of notes.entry))) }
    ensures left { IfOk result (λ left. left_of left ≡ beyond row.now (left_of notes.entry)) }
    ensures head { IfOk result (λ left. string_bytes head.new ≡ next_head (left_of left)) }
{
    let mut left = notes;
    while let Some((place, text, others)) = left.split_first() {
        if !is_its_row(row, place, head) {
            return Ok(left);
        }
        print_note(out, margin, text)?;
        print_next(head, others)?;
        left = others;
    }
    Ok(left)
}

/// Whether the row is that of a note, whose head is written so.
fn is_its_row(row: &[u8], place: Head, head: &str) -> bool
    requires { head.now ≡ head_text place }
    ensures { result ≡ is_of row.now place }
{
    match place {
        Head::End => false,
        Head::Event { .. } | Head::Line(_) => begins_with(row, head.as_bytes()),
    }
}

/// Whether a row begins with these bytes, which are few: one after the other is compared.
fn begins_with(row: &[u8], head: &[u8]) -> bool
    ensures { result ≡ starts_with nat_eq row.now head.now }
{
    let mut rest = row;
    let mut left = head;
    while let Some((byte, others)) = left.split_first() {
        match rest.split_first() {
            Some((first, more)) if first == byte => rest = more,
            _ => return false,
        }
        left = others;
    }
    true
}

/// Writes what the row of the first note begins with.
fn print_next(head: &mut String, notes: NotesLeft<'_>) -> Result<(), AllocError>
    ensures { OnOk result (string_bytes head.new ≡ next_head (left_of notes.entry)) }
{
    head.clear();
    match notes.split_first() {
        Some((place, _, _)) => print_head(head, place),
        None => Ok(()),
    }
}

/// Appends what the row of a note begins with.
fn print_head(head: &mut String, place: Head) -> Result<(), AllocError>
    ensures { OnOk result (string_bytes head.new ≡ string_bytes head.old ++ head_text place) }
{
    match place {
        Head::Event { place, turn } => {
            print_number(head, place)?;
            head.push('.')?;
            print_number(head, u64::from(turn))?;
            head.push(' ')
        }
        Head::Line(number) => {
            head.push_str("line ")?;
            print_number(head, number)?;
            head.push_str(": ")
        }
        Head::End => Ok(()),
    }
}

/// Appends the notes that stand below the last row.
fn print_last(out: &mut Vec<u8>, notes: NotesLeft<'_>) -> Result<(), AllocError>
    ensures { OnOk result (out.new.items
        ≡ out.old.items ++ notes_text margin_below (filter (λ n. is_end n.head) (left_of notes.entry))) }
{
    let mut left = notes;
    while let Some((place, text, others)) = left.split_first() {
        if place == Head::End {
            print_note(out, BELOW, text)?;
        }
        left = others;
    }
    Ok(())
}

/// Appends the whole lines of a text as those of a note.
fn print_note(out: &mut Vec<u8>, margin: &[u8], text: &[u8]) -> Result<(), AllocError>
    ensures { OnOk result (out.new.items ≡ out.old.items ++ note_lines margin.now (split text.now).whole) }
{
    let mut rest = text;
    while !rest.is_empty() {
        let Some((_, others)) = split_line(rest) else {
            return Ok(());
        };
        out.extend_from_slice(margin)?;
        print_first(out, rest, others)?;
        rest = others;
    }
    Ok(())
}
