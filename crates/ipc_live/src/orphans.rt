//! Objects that nobody may need any more.

ghost use Rattle.std.specs.Prelude.{◌≡◌};
ghost use Rattle.ipc_live.specs.Orphans.{all_gone, is_gone as gone_in, is_unattached as has_none_attached, users_are_gone as gone_users};

use crate::objects::{Object, Use};
use crate::processes::Process;
use crate::table::tell;
use crate::text::{print_object, print_verdict};
use std::alloc::AllocError;
use std::fmt::Write;

/// Whether nobody has attached the segment (nattch 0). No other object is attached.
pub fn is_unattached(object: &Object) -> bool
    ensures { result ≡ has_none_attached object.now.used }
{
    match object.used {
        Use::Segment { nattch, .. } => nattch == 0,
        Use::Queue { .. } | Use::Sems => false,
    }
}

/// Whether the object's line names a process, and none that it names is among these, the numbers of the processes that
/// are there. Of a semaphore set the line names none.
pub fn users_are_gone(object: &Object, alive: &[u32]) -> bool
    ensures { result ≡ gone_users alive.now object.now.used }
{
    match object.used {
        Use::Queue { lspid, lrpid } => are_gone(lspid, lrpid, alive),
        Use::Segment { cpid, lpid, .. } => are_gone(cpid, lpid, alive),
        Use::Sems => false,
    }
}

fn are_gone(first: u32, second: u32, alive: &[u32]) -> bool
    ensures { result ≡ all_gone alive.now first second }
{
    (first != 0 || second != 0) && is_gone(first, alive) && is_gone(second, alive)
}

/// Whether the number is 0, which names no process, or that of none of these.
fn is_gone(pid: u32, alive: &[u32]) -> bool
    ensures { result ≡ gone_in alive.now pid }
{
    pid == 0 || !alive.contains(&pid)
}

/// Appends an object that nobody may need: its line, why it is one, and which users may remove it.
pub fn print_orphan(out: &mut String, object: &Object, alive: &[u32]) -> Result<(), AllocError> {
    print_object(out, object)?;
    if is_unattached(object) {
        out.push_str("  nobody has attached it\n")?;
    }
    if users_are_gone(object, alive) {
        print_gone(out, object.used)?;
    }
    let (uid, cuid) = (object.perm.uid, object.perm.cuid);
    write!(out, "  user {uid}")?;
    if cuid != uid {
        write!(out, ", user {cuid}")?;
    }
    out.push_str(" or CAP_SYS_ADMIN may remove it\n")
}

fn print_gone(out: &mut String, used: Use) -> Result<(), AllocError> {
    match used {
        Use::Queue { lspid, lrpid } => print_pids(out, ("lspid", lspid), ("lrpid", lrpid)),
        Use::Segment { cpid, lpid, .. } => print_pids(out, ("cpid", cpid), ("lpid", lpid)),
        Use::Sems => Ok(()),
    }
}

/// Appends the processes that are named by a number other than 0.
fn print_pids(out: &mut String, first: (&str, u32), second: (&str, u32)) -> Result<(), AllocError> {
    match (first, second) {
        ((_, 0), (name, pid)) | ((name, pid), (_, 0)) => write!(out, "  {name} {pid} is gone\n"),
        ((first, pid), (second, other)) => {
            write!(out, "  {first} {pid} and {second} {other} are gone\n")
        }
    }
}

/// Appends whether the process may remove the object.
pub fn print_remover(
    out: &mut String,
    object: &Object,
    process: &Process,
) -> Result<(), AllocError> {
    let (pid, name) = (process.pid, process.name.as_str());
    write!(out, "  pid {pid} ({name}): set and remove ")?;
    print_verdict(out, tell(&process.creds, object).control)?;
    out.push_str("\n")
}
