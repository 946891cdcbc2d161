//! What would allow a call that is refused for rights.

use crate::cases::Told;
use ipc_call::{Call, Perm, is_read_only};
use ipc_creds::Creds;
use ipc_perm::{TO_READ, Want, asked_of_flags};
use need_changes::{Change, changes_for, changes_to_control};
use number_text::print_number;
use perm_words::{class_bits, print_mode, rights_in, stands};
use shown_lines::{Flag, print_flags};

/// The bits of a get's flags that ask to read, and those that ask to write (msgget(2)).
const READ_BITS: u32 = 0o444;

const WRITE_BITS: u32 = 0o222;

/// How a call may ask for less.
#[derive(Clone, Copy)]
enum Less {
    /// A get with these flags.
    Flags(u32),
    /// shmat with SHM_RDONLY.
    ReadOnly,
}

/// Appends a line with the changes that would allow the permissions, each alone. Where the call is given, it may ask for less.
pub(crate) fn print_changes(
    out: &mut String,
    creds: &Creds,
    perm: &Perm,
    want: Want,
    call: Option<&Call>,
) -> Told {
    let less = less_of(creds, perm, call);
    let changes = changes_for(*out.allocator(), creds, perm, want, less.map(asked_by_less))?;
    print_list(out, changes.as_slice(), less)
}

/// The same of a call that asks for control.
pub(crate) fn print_changes_to_control(out: &mut String, creds: &Creds, perm: &Perm) -> Told {
    let changes = changes_to_control(*out.allocator(), creds, perm)?;
    print_list(out, changes.as_slice(), None)
}

/// How the call may ask for no more than the caller's class gets.
fn less_of(creds: &Creds, perm: &Perm, call: Option<&Call>) -> Option<Less> {
    let given = rights_in(class_bits(stands(creds, perm), perm.mode.bits()));
    match call? {
        Call::MsgGet { flags, .. } | Call::SemGet { flags, .. } | Call::ShmGet { flags, .. } => {
            Some(Less::Flags(flags_within(*flags, given)))
        }
        Call::ShmAt { flags, .. } if !is_read_only(*flags) => Some(Less::ReadOnly),
        _ => None,
    }
}

/// The flags of a get without the bits that ask for what isn't given.
fn flags_within(flags: u32, given: Want) -> u32 {
    let read = if given.read { 0 } else { READ_BITS };
    let write = if given.alter { 0 } else { WRITE_BITS };
    flags & (u32::MAX ^ read) & (u32::MAX ^ write)
}

fn asked_by_less(less: Less) -> Want {
    match less {
        Less::Flags(flags) => asked_of_flags(flags),
        Less::ReadOnly => TO_READ,
    }
}

fn print_list(out: &mut String, changes: &[Change], less: Option<Less>) -> Told {
    let mut between = "would be granted: ";
    for change in changes {
        out.push_str(between)?;
        print_change(out, *change, less)?;
        between = ", ";
    }
    out.push_str("\n")
}

fn print_change(out: &mut String, change: Change, less: Option<Less>) -> Told {
    match change {
        Change::Asking(_) => print_less(out, less),
        Change::Mode(mode) => {
            out.push_str("with mode ")?;
            print_mode(out, mode.bits())
        }
        Change::Group(gid) => {
            out.push_str("as group ")?;
            print_number(out, u64::from(gid))
        }
        Change::User(uid) => {
            out.push_str("as user ")?;
            print_number(out, u64::from(uid))
        }
        Change::IpcOwner => out.push_str("with CAP_IPC_OWNER"),
        Change::SysAdmin => out.push_str("with CAP_SYS_ADMIN"),
    }
}

fn print_less(out: &mut String, less: Option<Less>) -> Told {
    match less {
        Some(Less::Flags(flags)) => {
            let mut shown = Vec::new(*out.allocator());
            print_flags(&mut shown, &[Flag::Creat, Flag::Excl], flags)?;
            out.push_str("with flags ")?;
            out.push_str(str::from_utf8(shown.as_slice()).unwrap_or(""))
        }
        Some(Less::ReadOnly) => out.push_str("with SHM_RDONLY"),
        None => Ok(()),
    }
}
