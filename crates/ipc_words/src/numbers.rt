// Numbers in a script: decimal, octal after 0, hexadecimal after 0x.

ghost use Rattle.std.specs.Prelude.{◌≡◌, ◌≤◌, IfSome, option_and_then};
ghost use Rattle.ipc_words.specs.Numbers.{at_most, behind_zero as number_behind_zero, number_16 as word_16, number_32 as word_32, number_within, numeral as digits_number};
ghost use Rattle.ipc_words.specs.Numbers.{negative as negative_word, positive as positive_word, signed_16 as signed_word_16, signed_32 as signed_word_32, signed_64 as signed_word};

/// The number that the word writes, where it is at most `most`: in decimal, in octal after 0 or in hexadecimal after
/// 0x (strtoul(3)), without a sign; `None` for any other word. So each of the readers below.
#[tactic(auto, unfolding(crate::specs::Numbers::number_within))]
pub fn number(word: &[u8], most: u64) -> Option<u64>
    ensures value { result ≡ number_within most word.now }
    ensures within { IfSome result (λ value. value ≤ most) }
{
    match word.split_first() {
        None => None,
        Some((b'0', rest)) => behind_zero(rest, most),
        Some(_) => numeral(10, word, most),
    }
}

fn behind_zero(rest: &[u8], most: u64) -> Option<u64>
    ensures value { result ≡ option_and_then (at_most most) (number_behind_zero rest.now) }
    ensures within { IfSome result (λ value. value ≤ most) }
{
    match rest.split_first() {
        None => Some(0),
        Some((b'x', [])) => None,
        Some((b'x', digits)) => numeral(16, digits, most),
        Some(_) => numeral(8, rest, most),
    }
}

/// The number that the word writes, where 16 bits hold it.
pub fn number_16(word: &[u8]) -> Option<u16>
    ensures { result ≡ word_16 word.now }
{
    let value = number(word, u64::from(u16::MAX))?;
    Some(value as u16)
}

/// The number that the word writes, where 32 bits hold it.
pub fn number_32(word: &[u8]) -> Option<u32>
    ensures { result ≡ word_32 word.now }
{
    let value = number(word, u64::from(u32::MAX))?;
    Some(value as u32)
}

/// The number that the word writes, with a sign or none before it, where 64 bits hold it.
pub fn signed_64(word: &[u8]) -> Option<i64>
    ensures { result ≡ signed_word word.now }
{
    match word.split_first() {
        None => None,
        Some((b'-', digits)) => negative(digits),
        Some((b'+', digits)) => positive(digits),
        Some(_) => positive(word),
    }
}

/// The number that the word writes, with a sign or none before it, where 16 bits hold it.
pub fn signed_16(word: &[u8]) -> Option<i16>
    ensures { result ≡ signed_word_16 word.now }
{
    i16::try_from(signed_64(word)?).ok()
}

/// The number that the word writes, with a sign or none before it, where 32 bits hold it.
pub fn signed_32(word: &[u8]) -> Option<i32>
    ensures { result ≡ signed_word_32 word.now }
{
    i32::try_from(signed_64(word)?).ok()
}

fn positive(digits: &[u8]) -> Option<i64>
    ensures { result ≡ positive_word digits.now }
{
    let value = number(digits, i64::MAX as u64)?;
    Some(value as i64)
}

fn negative(digits: &[u8]) -> Option<i64>
    ensures { result ≡ negative_word digits.now }
{
    let value = number(digits, 1 << 63)?;
    if value == 1 << 63 {
        return Some(i64::MIN);
    }
    Some(-(value as i64))
}

/// The number that these digits of the base write, where it is at most `most`. No digits write 0.
pub fn numeral(base: u32, digits: &[u8], most: u64) -> Option<u64>
    requires lower_bound { 2 ≤ base }
    requires upper_bound { base ≤ 36 }
    ensures value { result ≡ option_and_then (at_most most) (digits_number base digits.now) }
    ensures within { IfSome result (λ value. value ≤ most) }
{
    let mut value: u64 = 0;
    for digit in digits {
        let digit = u64::from((*digit as char).to_digit(base)?);
        value = value.checked_mul(u64::from(base))?.checked_add(digit)?;
        if value > most {
            return None;
        }
    }
    Some(value)
}
