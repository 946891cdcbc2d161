// The values of the commands' options.

ghost use Rattle.std.specs.Prelude.{◌≡◌, ◌≤◌, IfSome};
ghost use Rattle.ipc_commands.specs.Values.{decimal_within, key_of as key_word, mode_of as mode_word};

use ipc_words::{number, number_32, numeral};

/// The longest mode, in octal digits.
const MODE_DIGITS: usize = 4;

/// The key that the word writes: any but 0, IPC_PRIVATE.
pub(crate) fn key_of(word: &[u8]) -> Option<u32>
    ensures { result ≡ key_word word.now }
{
    let key = number_32(word)?;
    if key == 0 {
        return None;
    }
    Some(key)
}

/// The number that the word writes in decimal, where it is at most `most`.
#[tactic(auto, unfolding(crate::specs::Values::decimal_within))]
pub(crate) fn decimal(word: &[u8], most: u64) -> Option<u64>
    ensures value { result ≡ decimal_within most word.now }
    ensures within { IfSome result (λ value. value ≤ most) }
{
    match word {
        [b'0', _, ..] => None,
        _ => number(word, most),
    }
}

/// The permission bits of the mode that the word writes in 1 to 4 octal digits (chmod(1)).
#[tactic(auto, unfolding(crate::specs::Values::mode_of))]
pub(crate) fn mode_of(word: &[u8]) -> Option<u32>
    ensures { result ≡ mode_word word.now }
{
    if word.is_empty() || word.len() > MODE_DIGITS {
        return None;
    }
    let mode = numeral(8, word, 0o7777)?;
    Some(mode as u32 & 0o777)
}
