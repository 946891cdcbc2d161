// The text of a message, or bytes for a segment: `t:` and the bytes themselves, or `x:` and two hexadecimal
// digits for each.

ghost use Rattle.std.specs.Prelude.{◌≡◌, IfOk, option_map};
ghost use Rattle.std.specs.List.{list_all};
ghost use Rattle.ipc_text.specs.Texts.{bytes_of as bytes_of_digits, is_small, text_of as text_word};

use hex::FromHexError;
use ipc_call::Items;
use std::alloc::{AllocError, Global};

/// The text that the word writes; None where it writes none. `AllocError` comes where memory was refused.
pub(crate) fn text_of(alloc: Global, word: &[u8]) -> Result<Option<Items<u8>>, AllocError>
    ensures { IfOk result (λ text. text ≡ text_word word.now) }
{
    if let Some(text) = word.strip_prefix(b"t:") {
        return Ok(Some(Items::new(Vec::from_slice(alloc, text)?)));
    }
    match word.strip_prefix(b"x:") {
        None => Ok(None),
        Some(digits) => bytes_of(alloc, digits),
    }
}

// The bytes that pairs of hexadecimal digits write.
fn bytes_of(alloc: Global, digits: &[u8]) -> Result<Option<Items<u8>>, AllocError>
    ensures { IfOk result (λ bytes. bytes ≡ bytes_of_digits digits.now) }
{
    if !are_small(digits) {
        return Ok(None);
    }
    match hex::decode(alloc, digits) {
        Ok(bytes) => Ok(Some(Items::new(bytes))),
        Err(FromHexError::OutOfMemory) => Err(AllocError),
        Err(_) => Ok(None),
    }
}

// Whether there is no capital letter.
fn are_small(digits: &[u8]) -> bool
    ensures { result ≡ list_all is_small digits.now }
{
    digits.iter().all(|digit| !digit.is_ascii_uppercase())
}
