// The lines of limits and of the clock.

use ipc_arguments::{Argument, Quoted, Told, Word, explain_comment, explain_word, nearest};
use ipc_call::{Limit, Memory};
use ipc_text::limit_named;
use std::fmt::Write;

/// The limits, by name.
const LIMITS: &str = "slots queues sets segments first-seq msgmax msgmnb semmsl semopm shmmax";

/// Appends what is wrong with the words after `limit`.
pub(crate) fn explain_limit(out: &mut String, words: &[Word<'_>]) -> Told {
    let Some((name, values)) = words.split_first() else {
        return out.push_str("limit takes LIMIT NUMBER, as limit slots 16; LIMIT is missing");
    };
    let Some(limit) = limit_named(name.bytes) else {
        return explain_name(out, *name);
    };
    match values {
        [] => out.push_str("limit takes LIMIT NUMBER, as limit slots 16; NUMBER is missing"),
        [value] => explain_value(out, name.bytes, limit, *value),
        [_, more, ..] => explain_more(out, "limit takes LIMIT NUMBER", *more),
    }
}

fn explain_name(out: &mut String, word: Word<'_>) -> Told {
    word.push_column(out)?;
    let (shown, name) = (Quoted(word.bytes), word.bytes);
    write!(out, "limit: {shown} is no limit; ")?;
    match nearest(name, LIMITS) {
        Some(name) => write!(out, "did you mean {name}?"),
        None => write!(out, "they are {LIMITS}"),
    }
}

fn explain_value(out: &mut String, name: &[u8], limit: Limit, value: Word<'_>) -> Told {
    value.push_column(out)?;
    let (name, value) = (Quoted(name), Quoted(value.bytes));
    let (least, most) = (limit.least(), limit.most());
    write!(
        out,
        "limit: {name} is {least} to {most}, not {value}; it stays as it was"
    )
}

fn explain_more(out: &mut String, form: &str, word: Word<'_>) -> Told {
    if word.bytes.starts_with(b"#") {
        return explain_comment(out, word);
    }
    word.push_column(out)?;
    let word = Quoted(word.bytes);
    write!(out, "{form}; {word} is an argument too many")
}

/// Appends what is wrong with the words after `clock`.
pub(crate) fn explain_clock(out: &mut String, words: &[Word<'_>]) -> Told {
    match words {
        [] => out.push_str(
            "clock takes NUMBER, the time in seconds, as clock 60; NUMBER is missing",
        ),
        [time] => explain_word(out, "clock", Argument::Time, *time),
        [_, more, ..] => explain_more(out, "clock takes NUMBER", *more),
    }
}
