// Operations of semop.

use crate::arguments::Argument;
use crate::numbers::explain_number;
use crate::words::{Quoted, Shown, Told};
use ipc_words::{signed_16, split_field};
use std::fmt::Write;

/// Appends what is wrong with a word as an operation.
pub(crate) fn explain_operation(out: &mut String, word: &[u8]) -> Told {
    let (num, rest) = split_field(word, b':');
    let Some(rest) = rest else {
        return explain_no_colon(out, word);
    };
    let (op, flags) = split_field(rest, b':');
    if !Argument::OpNum.takes(num) {
        return explain_part(out, Argument::OpNum, num);
    }
    if !Argument::OpValue.takes(op) {
        return explain_part(out, Argument::OpValue, op);
    }
    match flags {
        Some(flags) if flags.contains(&b':') => {
            out.push_str("an operation has three parts at most, as 0:-1:010000")
        }
        Some([]) => out.push_str("nothing follows the last colon; leave it out"),
        Some(flags) => explain_part(out, Argument::OpFlags, flags),
        None => Ok(()),
    }
}

fn explain_no_colon(out: &mut String, word: &[u8]) -> Told {
    out.push_str("an operation is NUM:OP or NUM:OP:FLAGS")?;
    if signed_16(word).is_some() {
        let shown = Shown(word);
        return write!(out, "; write 0:{shown} for semaphore 0");
    }
    out.push_str(", as 0:-1 or 0:-1:010000")
}

fn explain_part(out: &mut String, argument: Argument, part: &[u8]) -> Told {
    let name = argument.name();
    if part.is_empty() {
        return write!(out, "its {name} is missing; write NUM:OP, as 0:-1");
    }
    let shown = Quoted(part);
    write!(out, "its {name} {shown}: ")?;
    explain_number(out, argument, part)
}
