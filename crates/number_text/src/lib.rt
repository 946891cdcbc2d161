//! Numbers in decimal digits at the end of a text, in fewer instructions than `write!` takes.
#![tactic(auto)]

ghost use Rattle.std.specs.Prelude.{◌≡◌, ◌++◌, OnOk, decimal, string_bytes};
ghost use Rattle.std.specs.Fmt.{signed_decimal};

use itoa::Buffer;
use std::alloc::AllocError;

/// Appends a number, which mostly has one digit. The error comes only where an allocation fails.
#[tactic(auto, using(std::proofs::lemmas::Fmt::decimal_digit))]
#[inline(always)]
pub fn print_number(out: &mut String, number: u64) -> Result<(), AllocError>
    ensures { OnOk result (string_bytes out.new ≡ string_bytes out.old ++ decimal number) }
{
    if number < 10 {
        return out.push((b'0' + number as u8) as char);
    }
    print_digits(out, number)
}

#[inline(never)]
fn print_digits(out: &mut String, number: u64) -> Result<(), AllocError>
    ensures { OnOk result (string_bytes out.new ≡ string_bytes out.old ++ decimal number) }
{
    let mut digits = Buffer::new();
    out.push_str(digits.format(number))
}

/// Appends a number, with a sign where it is negative. The error comes only where an allocation fails.
pub fn print_signed(out: &mut String, value: i64) -> Result<(), AllocError>
    ensures { OnOk result (string_bytes out.new ≡ string_bytes out.old ++ signed_decimal value) }
{
    let mut digits = Buffer::new();
    out.push_str(digits.format(value))
}
