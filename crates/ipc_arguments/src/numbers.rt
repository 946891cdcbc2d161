// Words that are no number where one is wanted.

use crate::arguments::{Argument, Shape};
use crate::flags::named_flags;
use crate::words::{Octal, Shown, Told};
use std::fmt::Write;

fn are_digits(word: &[u8]) -> bool {
    !word.is_empty() && word.iter().all(|byte| byte.is_ascii_digit())
}

fn are_hexadecimal(word: &[u8]) -> bool {
    !word.is_empty() && word.iter().all(|byte| byte.is_ascii_hexdigit())
}

/// Whether the word is digits and this byte, a digit first.
fn are_digits_with(word: &[u8], separator: u8) -> bool {
    let is_part = |byte: &u8| byte.is_ascii_digit() || *byte == separator;
    word.first().is_some_and(|byte| byte.is_ascii_digit()) && word.iter().all(is_part)
}

/// Whether a unit comes after one digit or more.
fn has_unit(word: &[u8]) -> bool {
    let digits = word.iter().take_while(|byte| byte.is_ascii_digit()).count();
    let unit = word.get(digits..).unwrap_or(word);
    digits > 0
        && !matches!(unit, [b'x' | b'X', ..])
        && unit.len() <= 3
        && unit.iter().all(|byte| byte.is_ascii_alphabetic())
}

/// Whether the word may be the name of a user or a group.
fn is_account(argument: Argument, word: &[u8]) -> bool {
    matches!(argument, Argument::Uid | Argument::Gid)
        && word.first().is_some_and(|byte| byte.is_ascii_alphabetic())
        && !word.contains(&b'=')
}

/// Appends what is wrong with the word as a number for the argument, and what to write.
pub(crate) fn explain_number(out: &mut String, argument: Argument, word: &[u8]) -> Told {
    if let Some(flags) = named_flags(word) {
        return push_flags(out, argument, flags);
    }
    let digits = match word {
        [b'-' | b'+', digits @ ..] => digits,
        _ => word,
    };
    match digits {
        [b'0', b'o' | b'O', octal @ ..] if are_digits(octal) => {
            let octal = Shown(octal);
            write!(out, "octal begins with 0 alone; write 0{octal}")
        }
        [b'0', b'X', hex @ ..] if are_hexadecimal(hex) => {
            let hex = Shown(hex);
            write!(out, "hexadecimal begins with 0x; write 0x{hex}")
        }
        [b'0', rest @ ..] if are_digits(rest) && rest.iter().any(|digit| *digit > b'7') => {
            out.push_str(
                "a leading 0 makes a number octal, without the digits 8 and 9; leave the 0 out",
            )
        }
        [b'0', b'x', hex @ ..] if are_hexadecimal(hex) => push_range(out, argument, word),
        _ if are_digits(digits) => push_range(out, argument, word),
        _ if are_digits_with(digits, b'_') => push_digits(out, digits),
        _ if are_digits_with(digits, b',') => {
            out.push_str("no comma may stand in a number; blanks separate arguments")
        }
        _ if has_unit(digits) => out.push_str("no unit may stand here; write the number alone"),
        b"root" if is_account(argument, word) => {
            out.push_str("users and groups are numbers here; root is 0")
        }
        _ if is_account(argument, word) => {
            out.push_str("users and groups are numbers here; id(1) tells that of a name")
        }
        _ => push_expected(out, argument),
    }
}

fn push_flags(out: &mut String, argument: Argument, flags: u32) -> Told {
    let octal = Octal(flags);
    if argument.has_flags() {
        return write!(out, "flags are numbers here; write {octal}");
    }
    write!(out, "names aren't read here; write {octal}")
}

fn push_range(out: &mut String, argument: Argument, word: &[u8]) -> Told {
    let range = argument.range();
    let has_sign = matches!(word, [b'-' | b'+', ..]);
    if has_sign && !matches!(argument.shape(), Shape::Signed(_)) {
        return write!(out, "no sign may stand here; write a number from {range}");
    }
    write!(out, "out of range; write a number from {range}")
}

/// Appends the digits of a number that has `_` between them.
fn push_digits(out: &mut String, word: &[u8]) -> Told {
    out.push_str("write the digits alone: ")?;
    for byte in word.iter().take(24).filter(|byte| **byte != b'_') {
        out.push(char::from(*byte))?;
    }
    Ok(())
}

fn push_expected(out: &mut String, argument: Argument) -> Told {
    let range = argument.range();
    match argument {
        Argument::GetFlags => out.push_str("no number; IPC_CREAT and the mode 0600 are 01600"),
        Argument::Mode => out.push_str("no number; write the mode in octal, as 0640"),
        Argument::Flags | Argument::OpFlags => out.push_str(
            "no number; none are 0, and IPC_NOWAIT is 04000",
        ),
        Argument::Key => out.push_str(
            "no number; write a key as 5 or 0x1234, and IPC_PRIVATE as 0",
        ),
        Argument::Id => out.push_str(
            "no number; write the identifier that a get was answered, as 0",
        ),
        Argument::Pid => out.push_str("no number; the first client is process 1, the second 2"),
        Argument::Timeout | Argument::Time => out.push_str(
            "no number; write a time in seconds, as 60",
        ),
        _ => write!(
            out,
            "no number; write one from {range}, as 10, 012 (octal) or 0xa"
        ),
    }
}
