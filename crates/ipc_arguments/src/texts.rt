// Texts of messages, and bytes for a segment.

use crate::arguments::is_small_digit;
use crate::words::{Shown, Told};
use std::fmt::Write;

/// Appends what is wrong with a word as a text.
pub(crate) fn explain_text(out: &mut String, word: &[u8]) -> Told {
    match word {
        [b'x', b':', digits @ ..] => explain_digits(out, digits),
        [b'X' | b'T', b':', ..] => out.push_str("the letter before the colon is small: t: or x:"),
        [b'"' | b'\'', rest @ ..] => {
            let text = Shown(without_quote(rest.strip_prefix(b"t:").unwrap_or(rest)));
            write!(
                out,
                "quotes mean nothing here; write t:{text}, and a blank as 20 after x:"
            )
        }
        _ => {
            let text = Shown(word);
            write!(out, "a text begins with t: or x:; write t:{text}")
        }
    }
}

fn without_quote(word: &[u8]) -> &[u8] {
    match word {
        [rest @ .., b'"' | b'\''] => rest,
        _ => word,
    }
}

fn explain_digits(out: &mut String, digits: &[u8]) -> Told {
    if digits.iter().any(|byte| byte.is_ascii_uppercase()) {
        return out.push_str("the digits after x: are 0 to 9 and small a to f");
    }
    if !digits.iter().all(is_small_digit) {
        return out.push_str("two digits for each byte come after x:, of 0 to 9 and a to f");
    }
    let count = digits.len();
    write!(
        out,
        "a byte has two digits, and their number is odd: {count}"
    )
}
