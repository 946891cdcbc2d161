// The lines of ipcs, ipcrm and ipcmk.

use ipc_arguments::{Quoted, Told, Word, explain_comment};
use ipc_words::{number_32, numeral};
use std::fmt::Write;

#[derive(Clone, Copy, Debug, PartialEq, Eq)]
enum Tool {
    Ipcs,
    Ipcrm,
    Ipcmk,
}

/// The value of an option.
#[derive(Clone, Copy, Debug, PartialEq, Eq)]
enum Value {
    Nothing,
    Id,
    Key,
    Size,
    Count,
    Mode,
}

/// What is wrong with the words of a command.
#[derive(Clone, Copy, Debug)]
enum Fault<'a> {
    /// This word is neither an option nor a value.
    Stray,
    /// This word has a letter that is no option.
    NoOption,
    /// The option has no value.
    NoValue(u8),
    /// The option has this one, which it doesn't take.
    BadValue(u8, Value, &'a [u8]),
    /// The option stands twice.
    Twice(u8),
}

impl Tool {
    fn usage(self) -> &'static str {
        match self {
            Tool::Ipcs => "ipcs [-q] [-m] [-s]",
            Tool::Ipcrm => "ipcrm [-q ID] [-m ID] [-s ID] [-Q KEY] [-M KEY] [-S KEY]",
            Tool::Ipcmk => "ipcmk [-Q] [-M SIZE] [-S NSEMS] [-p MODE]",
        }
    }

    /// The value of an option; None where the tool doesn't have it.
    fn value_of(self, letter: u8) -> Option<Value> {
        match (self, letter) {
            (Tool::Ipcs, b'q' | b'm' | b's') | (Tool::Ipcmk, b'Q') => Some(Value::Nothing),
            (Tool::Ipcrm, b'q' | b'm' | b's') => Some(Value::Id),
            (Tool::Ipcrm, b'Q' | b'M' | b'S') => Some(Value::Key),
            (Tool::Ipcmk, b'M') => Some(Value::Size),
            (Tool::Ipcmk, b'S') => Some(Value::Count),
            (Tool::Ipcmk, b'p') => Some(Value::Mode),
            _ => None,
        }
    }
}

impl Value {
    fn takes(self, word: &[u8]) -> bool {
        let is_octal = |digit: &u8| (b'0'..=b'7').contains(digit);
        match self {
            Value::Nothing => false,
            Value::Id => number_32(word).is_some(),
            Value::Key => number_32(word).is_some_and(|key| key != 0),
            Value::Size => is_decimal(word, u64::MAX),
            Value::Count => is_decimal(word, u64::from(u32::MAX)),
            Value::Mode => (1..=4).contains(&word.len()) && word.iter().all(is_octal),
        }
    }

    /// What it takes.
    fn form(self) -> &'static str {
        match self {
            Value::Nothing => "no value",
            Value::Id => "an identifier is a number from 0 to 4294967295",
            Value::Key =>
                "a key is a number from 1 to 4294967295; what has the key 0 is removed by its identifier",
            Value::Size =>
                "a size is decimal, in bytes and without a unit, up to 18446744073709551615",
            Value::Count => "a number of semaphores is decimal, up to 4294967295",
            Value::Mode => "a mode is 1 to 4 octal digits, as 600 or 0600",
        }
    }
}

fn is_decimal(word: &[u8], most: u64) -> bool {
    word == b"0".as_slice()
        || (!word.starts_with(b"0") && !word.is_empty() && numeral(10, word, most).is_some())
}

/// Appends what is wrong with the words of a command, of which the first names it.
pub(crate) fn explain_command(out: &mut String, words: &[Word<'_>]) -> Told {
    let Some((first, arguments)) = words.split_first() else {
        return Ok(());
    };
    let (tool, name) = match first.bytes {
        b"ipcs" => (Tool::Ipcs, "ipcs"),
        b"ipcrm" => (Tool::Ipcrm, "ipcrm"),
        _ => (Tool::Ipcmk, "ipcmk"),
    };
    let fault = fault_of(tool, arguments);
    match fault {
        Some((word, Fault::Stray)) if word.bytes.starts_with(b"#") => {
            return explain_comment(out, word);
        }
        Some((word, fault)) => {
            word.push_column(out)?;
            write!(out, "{name}: ")?;
            explain_fault(out, word.bytes, fault)?;
        }
        None => write!(out, "{name}: nothing is asked for")?,
    }
    if matches!(fault, Some((_, Fault::BadValue(..)))) {
        return Ok(());
    }
    let usage = tool.usage();
    write!(out, "; write {usage}")
}

fn explain_fault(out: &mut String, word: &[u8], fault: Fault<'_>) -> Told {
    let word = Quoted(word);
    match fault {
        Fault::Stray => write!(out, "{word} is neither an option nor the value of one"),
        Fault::NoOption => write!(out, "{word} is no option here"),
        Fault::NoValue(letter) => {
            let letter = char::from(letter);
            write!(out, "the value of -{letter} is missing")
        }
        Fault::BadValue(letter, value, word) => {
            let (letter, form, word) = (char::from(letter), value.form(), Quoted(word));
            write!(out, "-{letter} {word}: {form}")
        }
        Fault::Twice(letter) => {
            let letter = char::from(letter);
            write!(out, "-{letter} stands twice")
        }
    }
}

/// The first word that has a fault, where one has, and which.
fn fault_of<'a>(tool: Tool, words: &[Word<'a>]) -> Option<(Word<'a>, Fault<'a>)> {
    let mut wanting = None;
    let mut seen = 0;
    let mut has_ended = false;
    for word in words {
        if let Some((option, letter, value)) = wanting {
            if let Some(fault) = value_fault(letter, value, word.bytes) {
                let is_missing = matches!(fault, Fault::NoValue(_));
                return Some((if is_missing { option } else { *word }, fault));
            }
            wanting = None;
            continue;
        }
        match word.bytes {
            _ if has_ended => return Some((*word, Fault::Stray)),
            b"--" => has_ended = true,
            [b'-', b'-', ..] => return Some((*word, Fault::NoOption)),
            [b'-', _, ..] => match read_letters(tool, word.bytes, &mut seen) {
                Ok(Some((letter, value))) => wanting = Some((*word, letter, value)),
                Ok(None) => {}
                Err(fault) => return Some((*word, fault)),
            },
            _ => return Some((*word, Fault::Stray)),
        }
    }
    let (option, letter, _) = wanting?;
    Some((option, Fault::NoValue(letter)))
}

fn value_fault(letter: u8, value: Value, word: &[u8]) -> Option<Fault<'_>> {
    if word.starts_with(b"-") {
        return Some(Fault::NoValue(letter));
    }
    (!value.takes(word)).then_some(Fault::BadValue(letter, value, word))
}

/// Looks at the letters of an option, and notes them among those seen. Gives the letter whose value is the next word.
fn read_letters<'a>(
    tool: Tool,
    word: &'a [u8],
    seen: &mut u64,
) -> Result<Option<(u8, Value)>, Fault<'a>> {
    for (index, letter) in word.iter().enumerate().skip(1) {
        let value = tool.value_of(*letter).ok_or(Fault::NoOption)?;
        let bit = 1u64 << (*letter % 64);
        if *seen & bit != 0 {
            return Err(Fault::Twice(*letter));
        }
        *seen |= bit;
        let rest = word.get(index.saturating_add(1)..).unwrap_or(word);
        match value {
            Value::Nothing => {}
            _ if rest.is_empty() => return Ok(Some((*letter, value))),
            _ => {
                let attached = rest.strip_prefix(b"=").unwrap_or(rest);
                let fault = Fault::BadValue(*letter, value, attached);
                return if value.takes(attached) {
                    Ok(None)
                } else {
                    Err(fault)
                };
            }
        }
    }
    Ok(None)
}
