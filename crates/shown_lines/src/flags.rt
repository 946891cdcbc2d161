//! Flags by their names.

ghost use Rattle.std.specs.Prelude.{◌≡◌, ◌++◌, ◌-◌, OnOk, length};
ghost use Rattle.ipc_call.specs.Flags.{has_flag};
ghost use Rattle.shown_lines.specs.Flags.{bar, bit_of as bit, flags_text, name_of, octal_text, parts_text, rest_text, without as without_flag};

use ipc_call::{IPC_CREAT, IPC_EXCL, IPC_NOWAIT, MSG_EXCEPT, MSG_NOERROR, SEM_UNDO, SHM_RDONLY};
use std::alloc::AllocError;

/// A flag of a call (msgget(2), msgop(2), semop(2), shmop(2)).
#[derive(Clone, Copy, Debug, PartialEq, Eq)]
pub enum Flag {
    /// IPC_CREAT
    Creat,
    /// IPC_EXCL
    Excl,
    /// IPC_NOWAIT
    NoWait,
    /// MSG_NOERROR
    NoError,
    /// MSG_EXCEPT
    Except,
    /// SEM_UNDO
    Undo,
    /// SHM_RDONLY
    ReadOnly,
}

/// Appends flags: those of these that are set by their names, with `|` between them, and the other bits in octal. The error comes
/// only where an allocation fails; so with all that is printed here.
pub fn print_flags(out: &mut Vec<u8>, names: &[Flag], flags: u32) -> Result<(), AllocError>
    ensures { OnOk result (out.new.items ≡ out.old.items ++ flags_text names.now flags) }
{
    if flags == 0 {
        return out.extend_from_slice(b"0");
    }
    print_parts(out, names, flags)
}

fn print_parts(out: &mut Vec<u8>, names: &[Flag], flags: u32) -> Result<(), AllocError>
    ensures { OnOk result (out.new.items ≡ out.old.items ++ parts_text names.now flags) }
{
    let mut left = flags;
    let mut rest = names;
    while let Some((flag, others)) = rest.split_first() {
        if left & bit_of(*flag) != 0 {
            left = without(left, *flag);
            print_name(out, *flag, left)?;
        }
        rest = others;
    }
    print_rest(out, left)
}

/// Appends a name, and a bar where bits are left.
fn print_name(out: &mut Vec<u8>, flag: Flag, left: u32) -> Result<(), AllocError>
    ensures { OnOk result (out.new.items ≡ out.old.items ++ name_of flag ++ bar left) }
{
    out.extend_from_slice(name(flag).as_bytes())?;
    if left != 0 {
        out.extend_from_slice(b"|")?;
    }
    Ok(())
}

/// Appends bits that have no name.
#[tactic(auto, unfolding(crate::specs::Flags::octal_text))]
fn print_rest(out: &mut Vec<u8>, left: u32) -> Result<(), AllocError>
    ensures { OnOk result (out.new.items ≡ out.old.items ++ rest_text left) }
{
    if left == 0 {
        return Ok(());
    }
    let digits = format!(in *out.allocator(); "0{left:o}")?;
    out.extend_from_slice(digits.as_bytes())
}

/// The flags without one of them.
fn without(flags: u32, flag: Flag) -> u32
    ensures { result ≡ without_flag flags flag }
{
    flags & (u32::MAX - bit_of(flag))
}

fn bit_of(flag: Flag) -> u32
    ensures { result ≡ bit flag }
{
    match flag {
        Flag::Creat => IPC_CREAT,
        Flag::Excl => IPC_EXCL,
        Flag::NoWait => IPC_NOWAIT,
        Flag::NoError => MSG_NOERROR,
        Flag::Except => MSG_EXCEPT,
        Flag::Undo => SEM_UNDO,
        Flag::ReadOnly => SHM_RDONLY,
    }
}

#[tactic(auto, unfolding(crate::specs::Flags::name_of))]
fn name(flag: Flag) -> &'static str
    ensures { result.now ≡ name_of flag }
{
    match flag {
        Flag::Creat => "IPC_CREAT",
        Flag::Excl => "IPC_EXCL",
        Flag::NoWait => "IPC_NOWAIT",
        Flag::NoError => "MSG_NOERROR",
        Flag::Except => "MSG_EXCEPT",
        Flag::Undo => "SEM_UNDO",
        Flag::ReadOnly => "SHM_RDONLY",
    }
}
