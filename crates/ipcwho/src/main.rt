//! The program `ipcwho`: who may read, write, set and remove the System V IPC objects of this machine, and by which rule.
//! Status 0: all was read. 1: something couldn't be read, which standard error tells. 2: a fault. 3: words that the program
//! doesn't take.
#![tactic(auto)]

mod machine;
mod words;

use crate::machine::{Status, objects, pids, processes, status_of};
use crate::words::{Asked, Task};
use ipc_call::Kind;
use ipc_live::{
    Object, Process, is_unattached, print_orphan, print_remover, print_table, print_why, tabulate,
    users_are_gone,
};
use program_words::asked;
use std::alloc::AllocError;
use std::process::ExitCode;
use std::rt::{Env, Files};
use thiserror::Error;

/// Something couldn't be read.
const NOT_WHOLE: u8 = 1;

/// A fault stopped the program.
const FAULT: u8 = 2;

/// Words that the program doesn't take.
const USAGE: u8 = 3;

/// What `--help` prints, and standard error where the program doesn't take its words.
const HELP: &str = "usage: ipcwho [--proc DIR] [--orphans] [PID..] | --why PID KIND ID";

/// Why the program stopped.
#[derive(Clone, Copy, Debug, Error)]
enum Fault {
    /// An allocation failed.
    #[error("no memory")]
    Memory,
    /// A write failed.
    #[error("write failed")]
    Write,
}

impl From<AllocError> for Fault {
    fn from(_e: AllocError) -> Fault {
        Fault::Memory
    }
}

/// Does what is asked, and answers the status.
fn run<R: Env + Files + Print + Eprint + AllocGlobal + Clone + Drop>(rt: &R) -> Result<u8, Fault> {
    let Some(asked) = asked::<R, Asked>(rt)? else {
        return Ok(USAGE);
    };
    let mut out = String::new(rt.alloc());
    let whole = answer(rt, &asked, &mut out)?;
    match rt.print(out.as_str()) {
        Ok(()) if whole => Ok(0),
        Ok(()) => Ok(NOT_WHOLE),
        Err(_) => Err(Fault::Write),
    }
}

/// Appends the answer, and says whether all that it needs could be read.
fn answer<R: Files + Eprint + AllocGlobal + Clone + Drop>(
    rt: &R,
    asked: &Asked,
    out: &mut String,
) -> Result<bool, AllocError> {
    let mut whole = true;
    match asked.task {
        Task::Help => print_help(out)?,
        Task::Table => answer_table(rt, asked, out, &mut whole)?,
        Task::Orphans => answer_orphans(rt, asked, out, &mut whole)?,
        Task::Why { pid, kind, id } => {
            let place = Place { pid, kind, id };
            answer_why(rt, asked.proc.as_str(), place, out, &mut whole)?;
        }
    }
    Ok(whole)
}

fn print_help(out: &mut String) -> Result<(), AllocError> {
    out.push_str(HELP)?;
    out.push_str("\n")
}

/// Appends the table of all objects.
fn answer_table<R: Files + Eprint + AllocGlobal + Clone + Drop>(
    rt: &R,
    asked: &Asked,
    out: &mut String,
    whole: &mut bool,
) -> Result<(), AllocError> {
    let objects = objects(rt, asked.proc.as_str(), whole)?;
    let processes = asked_processes(rt, asked, whole)?;
    let entries = tabulate(rt.alloc(), objects.as_slice(), processes.as_slice())?;
    print_table(out, entries.as_slice())
}

/// The processes that are named, or all.
fn asked_processes<R: Files + Eprint + AllocGlobal + Clone + Drop>(
    rt: &R,
    asked: &Asked,
    whole: &mut bool,
) -> Result<Vec<Process>, AllocError> {
    let proc = asked.proc.as_str();
    if !asked.pids.is_empty() {
        return processes(rt, proc, asked.pids.as_slice(), true, whole);
    }
    let all = pids(rt, proc, whole)?;
    processes(rt, proc, all.as_slice(), false, whole)
}

/// Appends the objects that nobody may need.
fn answer_orphans<R: Files + Eprint + AllocGlobal + Clone + Drop>(
    rt: &R,
    asked: &Asked,
    out: &mut String,
    whole: &mut bool,
) -> Result<(), AllocError> {
    let proc = asked.proc.as_str();
    let objects = objects(rt, proc, whole)?;
    let alive = pids(rt, proc, whole)?;
    let processes = processes(rt, proc, asked.pids.as_slice(), true, whole)?;
    print_orphans(
        out,
        objects.as_slice(),
        alive.as_slice(),
        processes.as_slice(),
    )
}

/// Appends the objects that nobody may need, and who of these processes may remove each.
fn print_orphans(
    out: &mut String,
    objects: &[Object],
    alive: &[u32],
    processes: &[Process],
) -> Result<(), AllocError> {
    for object in objects {
        if is_unattached(object) || users_are_gone(object, alive) {
            print_orphan(out, object, alive)?;
            for process in processes {
                print_remover(out, object, process)?;
            }
        }
    }
    Ok(())
}

/// A process, and an object by its kind and identifier.
#[derive(Clone, Copy)]
struct Place {
    pid: u32,
    kind: Kind,
    id: u32,
}

/// Appends one process at one object in words.
fn answer_why<R: Files + Eprint + AllocGlobal>(
    rt: &R,
    proc: &str,
    place: Place,
    out: &mut String,
    whole: &mut bool,
) -> Result<(), AllocError> {
    let objects = objects(rt, proc, whole)?;
    match status_of(rt, proc, place.pid)? {
        Status::Read(process) => explain(rt, place, objects.as_slice(), &process, out, whole),
        Status::Gone | Status::Unread => {
            *whole = false;
            Ok(())
        }
    }
}

fn explain<R: Eprint>(
    rt: &R,
    place: Place,
    objects: &[Object],
    process: &Process,
    out: &mut String,
    whole: &mut bool,
) -> Result<(), AllocError> {
    for object in objects {
        if object.kind() == place.kind && object.id == place.id {
            return print_why(out, object, process);
        }
    }
    let id = place.id;
    let _ = eprintln!(rt; "ipcwho: there is no object {id} of this kind");
    *whole = false;
    Ok(())
}

fn main(rt: HostRuntime) -> ExitCode {
    let status = match run(&rt) {
        Ok(USAGE) => {
            let _ = eprintln!(rt; "ipcwho: {HELP}");
            USAGE
        }
        Ok(status) => status,
        Err(fault) => {
            let _ = eprintln!(rt; "ipcwho: {fault}");
            FAULT
        }
    };
    ExitCode::from(status)
}
