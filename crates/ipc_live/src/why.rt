//! One object and one process in words.

use crate::objects::{Object, Use};
use crate::processes::Process;
use crate::table::tell;
use crate::text::{print_object, print_verdict};
use ipc_perm::Verdict;
use perm_words::print_class;
use std::alloc::AllocError;
use std::fmt::Write;

/// Appends what the process may do to the object and why, a line each. The error comes only where an allocation fails.
pub fn print_why(out: &mut String, object: &Object, process: &Process) -> Result<(), AllocError> {
    print_object(out, object)?;
    print_process(out, process)?;
    print_class(out, &process.creds, &object.perm)?;
    out.push_str("\n")?;
    print_answers(out, object, process)
}

fn print_process(out: &mut String, process: &Process) -> Result<(), AllocError> {
    let (pid, name) = (process.pid, process.name.as_str());
    let (euid, egid) = (process.creds.euid(), process.creds.egid());
    write!(out, "pid {pid} ({name}): user {euid}, group {egid}")?;
    if !process.creds.groups().is_empty() {
        out.push_str(", supplementary groups")?;
    }
    for group in process.creds.groups() {
        write!(out, " {group}")?;
    }
    out.push_str("\n")
}

fn print_answers(out: &mut String, object: &Object, process: &Process) -> Result<(), AllocError> {
    let told = tell(&process.creds, object);
    print_answer(out, "read", told.read, "CAP_IPC_OWNER")?;
    print_answer(out, words_to_write(object), told.write, "CAP_IPC_OWNER")?;
    print_answer(out, "set and remove", told.control, "CAP_SYS_ADMIN")
}

/// What is asked for to write the object.
fn words_to_write(object: &Object) -> &'static str {
    match object.used {
        Use::Segment { .. } => "write (attached without SHM_RDONLY, which asks for both bits)",
        Use::Queue { .. } | Use::Sems => "write",
    }
}

/// Appends an answer. A denial names the capability that would have had it otherwise.
fn print_answer(
    out: &mut String,
    what: &str,
    verdict: Verdict,
    capability: &str,
) -> Result<(), AllocError> {
    write!(out, "{what}: ")?;
    print_verdict(out, verdict)?;
    match verdict {
        Verdict::Allowed(_) => out.push_str("\n"),
        Verdict::Denied(_) => write!(out, "; {capability} would have allowed it\n"),
    }
}
