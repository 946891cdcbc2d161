//! The class of a caller in words.

ghost use Rattle.std.specs.Prelude.{◌≡◌, ◌<◌, ◌++◌, OnOk, string_bytes};
ghost use Rattle.perm_words.specs.ClassText.{class_text, given_text, group_text, other_text, sort_text, standing_text, user_text};
ghost use Rattle.perm_words.specs.Standing.{name_of_rights};

use crate::object_text::print_mode;
use crate::standing::{Standing, class_bits, rights_in, stands};
use ipc_creds::Creds;
use ipc_perm::{Perm, Want};
use number_text::print_number;
use std::alloc::AllocError;

/// Appends by what the caller comes into its class, and what the mode gives that class, without a line feed: `class group: its
/// group 10 is the owner's; the mode 0640 gives this class r-`. The error comes only where an allocation fails.
pub fn print_class(out: &mut String, creds: &Creds, perm: &Perm) -> Result<(), AllocError>
    ensures { OnOk result (string_bytes out.new ≡ string_bytes out.old ++ class_text creds.now perm.now) }
{
    let standing = stands(creds, perm);
    print_standing(out, creds, perm, standing)?;
    let mode = perm.mode.bits();
    let given = rights_name(rights_in(class_bits(standing, mode)));
    print_given(out, mode, given)
}

fn print_standing(
    out: &mut String,
    creds: &Creds,
    perm: &Perm,
    standing: Standing,
) -> Result<(), AllocError>
    ensures { OnOk result (string_bytes out.new ≡ string_bytes out.old ++ standing_text creds.now perm.now standing) }
{
    match standing {
        Standing::Owner => print_user(out, creds, "owner"),
        Standing::Creator => print_user(out, creds, "creator"),
        Standing::OwnersGroup => print_group(out, creds, perm.gid, "owner's"),
        Standing::CreatorsGroup => print_group(out, creds, perm.cgid, "creator's"),
        Standing::Other => print_other(out, creds),
    }
}

/// Appends the class of an effective user.
fn print_user(out: &mut String, creds: &Creds, who: &str) -> Result<(), AllocError>
    ensures { OnOk result (string_bytes out.new ≡ string_bytes out.old ++ user_text creds.now who.now) }
{
    out.push_str("class owner: its user ")?;
    print_number(out, u64::from(creds.euid()))?;
    out.push_str(" is the ")?;
    out.push_str(who)?;
    Ok(())
}

fn print_group(out: &mut String, creds: &Creds, group: u32, whose: &str) -> Result<(), AllocError>
    ensures { OnOk result (string_bytes out.new ≡ string_bytes out.old ++ group_text creds.now group whose.now) }
{
    out.push_str("class group: its ")?;
    out.push_str(sort_of(creds, group))?;
    out.push_str("group ")?;
    print_number(out, u64::from(group))?;
    out.push_str(" is the ")?;
    out.push_str(whose)?;
    Ok(())
}

fn print_other(out: &mut String, creds: &Creds) -> Result<(), AllocError>
    ensures { OnOk result (string_bytes out.new ≡ string_bytes out.old ++ other_text creds.now) }
{
    out.push_str("class others: its user ")?;
    print_number(out, u64::from(creds.euid()))?;
    out.push_str(" is neither owner nor creator, and none of its groups is one of theirs")?;
    Ok(())
}

#[tactic(auto, unfolding(crate::specs::ClassText::sort_text))]
fn sort_of(creds: &Creds, group: u32) -> &'static str
    ensures { result.now ≡ sort_text creds.now group }
{
    if group == creds.egid() {
        ""
    } else {
        "supplementary "
    }
}

fn print_given(out: &mut String, mode: u16, given: &str) -> Result<(), AllocError>
    requires { mode < 512 }
    ensures { OnOk result (string_bytes out.new ≡ string_bytes out.old ++ given_text mode given.now) }
{
    out.push_str("; the mode ")?;
    print_mode(out, mode)?;
    out.push_str(" gives this class ")?;
    out.push_str(given)
}

/// Rights as ls(1) shows them, without execute, which no call asks for.
pub fn rights_name(rights: Want) -> &'static str
    ensures { result.now ≡ name_of_rights rights }
{
    if rights.read {
        if rights.alter { "rw" } else { "r-" }
    } else if rights.alter {
        "-w"
    } else {
        "--"
    }
}
