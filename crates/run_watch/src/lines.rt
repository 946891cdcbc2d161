// The words of a line.

use ipc_words::split_word;

/// What a line says behind its first word.
pub(crate) fn behind_first(text: &[u8]) -> &[u8] {
    match split_word(text) {
        Some((_, rest)) => rest,
        None => b"",
    }
}

/// The name in a line that declares a client, its second word.
pub(crate) fn name_in(text: &[u8]) -> &str {
    match split_word(behind_first(text)) {
        Some((word, _)) => str::from_utf8(word).unwrap_or(""),
        None => "",
    }
}
