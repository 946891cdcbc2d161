// Words that aren't what their argument takes.

use crate::arguments::{Argument, Shape};
use crate::numbers::explain_number;
use crate::operations::explain_operation;
use crate::texts::explain_text;
use crate::words::{Quoted, Told, Word};
use std::fmt::Write;

/// Appends that a word begins no comment.
pub fn explain_comment(out: &mut String, word: Word<'_>) -> Told {
    let shown = Quoted(word.bytes);
    word.push_column(out)?;
    write!(
        out,
        "{shown} begins no comment here; a comment stands on a line of its own"
    )
}

/// Appends what is wrong with a word for an argument of a call or a directive, and a way out.
pub fn explain_word(out: &mut String, call: &str, argument: Argument, word: Word<'_>) -> Told {
    if word.bytes.starts_with(b"#") {
        return explain_comment(out, word);
    }
    word.push_column(out)?;
    let (name, shown, word) = (argument.name(), Quoted(word.bytes), word.bytes);
    write!(out, "{call}: ")?;
    if argument == Argument::Groups {
        return write!(
            out,
            "{shown}: write groups=10,20, without blanks, or groups=- for none"
        );
    }
    write!(out, "{name} {shown}: ")?;
    match argument.shape() {
        Shape::Number(_) | Shape::Signed(_) => explain_number(out, argument, word),
        Shape::Target if begins_a_number(word) => explain_number(out, argument, word),
        Shape::Text => explain_text(out, word),
        Shape::Op => explain_operation(out, word),
        Shape::Kind => out.push_str("write q for a queue, s for a semaphore set, m for a segment"),
        Shape::Name => out.push_str("write the name of a client whose thread has ended"),
        Shape::Target => out.push_str("write the pid of a process, or the name of a client"),
        Shape::Creds => out.push_str(
            "write groups=10,20, caps=IPC_OWNER or saved=100:10, in this order",
        ),
        Shape::Groups => Ok(()),
    }
}

fn begins_a_number(word: &[u8]) -> bool {
    matches!(word, [b'0'..=b'9' | b'-' | b'+', ..])
}
