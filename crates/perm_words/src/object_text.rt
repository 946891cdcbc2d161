//! An object in one line.

ghost use Rattle.std.specs.Prelude.{◌≡◌, ◌<◌, ◌++◌, [], ◌∷◌, OnOk, string_bytes};
ghost use Rattle.perm_words.specs.ObjectText.{key_text, mode_text, name_of_kind, object_text, octal_digit, owned_text};

use ipc_call::{Kind, Perm};
use number_text::print_number;
use std::alloc::AllocError;
use std::fmt::Write;

/// Appends an object, without a line feed: its kind and identifier, key, mode, owner and creator, each a user and a group. The
/// error comes only where an allocation fails, and a part of the text may then stand in `out`.
pub fn print_object(out: &mut String, kind: Kind, id: u32, perm: &Perm) -> Result<(), AllocError>
    ensures { OnOk result (string_bytes out.new ≡ string_bytes out.old ++ object_text kind id perm.now) }
{
    out.push_str(kind_name(kind))?;
    out.push_str(" ")?;
    print_number(out, u64::from(id))?;
    out.push_str(" key ")?;
    print_key(out, perm.key)?;
    out.push_str(" mode ")?;
    print_mode(out, perm.mode.bits())?;
    print_owned(out, " owner ", perm.uid, perm.gid)?;
    print_owned(out, " creator ", perm.cuid, perm.cgid)?;
    Ok(())
}

#[tactic(auto, unfolding(crate::specs::ObjectText::key_text))]
fn print_key(out: &mut String, key: u32) -> Result<(), AllocError>
    ensures { OnOk result (string_bytes out.new ≡ string_bytes out.old ++ key_text key) }
{
    write!(out, "0x{key:x}")
}

/// Appends a mode as four octal digits, as `{:04o}` does, in fewer instructions. The error comes only where an allocation fails.
pub fn print_mode(out: &mut String, mode: u16) -> Result<(), AllocError>
    requires { mode < 512 }
    ensures { OnOk result (string_bytes out.new ≡ string_bytes out.old ++ mode_text mode) }
{
    out.push_str("0")?;
    print_octal_digit(out, mode / 64)?;
    print_octal_digit(out, mode / 8)?;
    print_octal_digit(out, mode)?;
    Ok(())
}

/// Appends the last octal digit of a number.
fn print_octal_digit(out: &mut String, number: u16) -> Result<(), AllocError>
    ensures { OnOk result (string_bytes out.new ≡ string_bytes out.old ++ octal_digit number ∷ []) }
{
    let digit = b'0' + (number % 8) as u8;
    out.push(char::from(digit))
}

/// Appends a user and a group.
fn print_owned(out: &mut String, whose: &str, user: u32, group: u32) -> Result<(), AllocError>
    ensures { OnOk result (string_bytes out.new ≡ string_bytes out.old ++ owned_text whose.now user group) }
{
    out.push_str(whose)?;
    print_number(out, u64::from(user))?;
    out.push_str(":")?;
    print_number(out, u64::from(group))
}

/// The name of a kind, as rows show it.
#[tactic(auto, unfolding(crate::specs::ObjectText::name_of_kind))]
pub fn kind_name(kind: Kind) -> &'static str
    ensures { result.now ≡ name_of_kind kind }
{
    match kind {
        Kind::Queue => "queue",
        Kind::Sems => "set",
        Kind::Segment => "segment",
    }
}
