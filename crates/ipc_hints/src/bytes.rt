// Bytes that may not stand in a line.

use ipc_arguments::Told;
use std::fmt::Write;

/// The bytes that stand for a character, and what to write in its place.
const CHARACTERS: [(&[u8], &str); 7] = [
    (b"\xc2\xa0", "a no-break space (c2 a0); write a blank"),
    (b"\xe2\x88\x92", "a minus sign (e2 88 92); write -"),
    (b"\xe2\x80\x93", "a dash (e2 80 93); write -"),
    (b"\xe2\x80\x94", "a dash (e2 80 94); write -"),
    (
        b"\xe2\x80\x9c",
        "a curly quote (e2 80 9c); a text is t:hello, without quotes",
    ),
    (
        b"\xe2\x80\x98",
        "a curly quote (e2 80 98); a text is t:hello, without quotes",
    ),
    (
        b"\xef\xbb\xbf",
        "a byte order mark (ef bb bf); leave it out",
    ),
];

/// Whether a byte is neither a tab nor a printing character.
pub(crate) fn is_odd(byte: &u8) -> bool {
    *byte != b'\t' && !(b' '..=b'~').contains(byte)
}

/// Appends which byte of a line is odd, and what to write.
pub(crate) fn explain_byte(out: &mut String, text: &[u8], place: usize) -> Told {
    if text.starts_with(b"\xef\xbb\xbf") {
        return out.push_str("the file begins with a byte order mark (ef bb bf); save it without");
    }
    if text.starts_with(b"\xff\xfe") || text.starts_with(b"\xfe\xff") {
        return out.push_str("the file begins with a byte order mark of UTF-16; save it as ASCII");
    }
    let odd = text.get(place..).unwrap_or(text);
    let column = place.saturating_add(1);
    write!(out, "column {column}: ")?;
    for (bytes, meaning) in CHARACTERS {
        if odd.starts_with(bytes) {
            return out.push_str(meaning);
        }
    }
    match odd.first() {
        Some(0) => out.push_str("a zero byte; lines are text"),
        Some(b'\r') => out.push_str(
            "a carriage return; a line ends at a line feed, and one may stand before it",
        ),
        Some(byte) => write!(
            out,
            "byte 0x{byte:02x}; a line is ASCII, and a text writes other bytes as x: and two digits for each"
        ),
        None => Ok(()),
    }
}
