// The words of the program.

use clap::error::ErrorKind;
use clap::{Arg, ArgAction, ArgMatches, Command};
use ipc_call::Kind;
use ipc_words::number_32;
use program_words::FromWords;
use std::alloc::{AllocError, Global};

/// What is asked for.
#[derive(Clone, Copy, Debug)]
pub(crate) enum Task {
    /// What the words mean.
    Help,
    /// The table of the objects and of the processes that are named, or of all.
    Table,
    /// The objects that nobody may need.
    Orphans,
    /// One process at one object, by its kind and identifier.
    Why { pid: u32, kind: Kind, id: u32 },
}

/// What the words ask for.
#[derive(Debug, Drop)]
pub(crate) struct Asked {
    pub(crate) task: Task,
    /// The folder that stands for /proc.
    pub(crate) proc: String,
    /// The processes that are named.
    pub(crate) pids: Vec<u32>,
}

impl FromWords for Asked {
    fn from_words(alloc: Global, words: &[&str]) -> Result<Option<Asked>, AllocError> {
        match ipcwho(alloc)?.try_get_matches_from(words) {
            Ok(matches) => asked_by(alloc, &matches),
            Err(error) => match error.kind() {
                ErrorKind::OutOfMemory => Err(AllocError),
                ErrorKind::DisplayHelp => Ok(Some(help(alloc))),
                _ => Ok(None),
            },
        }
    }
}

fn help(alloc: Global) -> Asked {
    Asked {
        task: Task::Help,
        proc: String::new(alloc),
        pids: Vec::new(alloc),
    }
}

fn ipcwho<'a>(alloc: Global) -> Result<Command<'a>, AllocError> {
    let proc = Arg::new(alloc, "proc").long("proc").action(ArgAction::Set);
    let orphans = Arg::new(alloc, "orphans")
        .long("orphans")
        .action(ArgAction::SetTrue);
    let why = Arg::new(alloc, "why")
        .long("why")
        .num_args(3)
        .action(ArgAction::Set);
    let pids = Arg::new(alloc, "pids")
        .num_args(0..)
        .action(ArgAction::Append);
    Command::new(alloc, "ipcwho")
        .arg(proc)?
        .arg(orphans)?
        .arg(why)?
        .arg(pids)
}

fn asked_by(alloc: Global, matches: &ArgMatches<'_>) -> Result<Option<Asked>, AllocError> {
    let Some(task) = task_of(matches) else {
        return Ok(None);
    };
    let mut pids = Vec::new(alloc);
    for word in matches.get_strs("pids").unwrap_or(&[]) {
        let Some(pid) = number_32(word.as_bytes()) else {
            return Ok(None);
        };
        pids.push(pid)?;
    }
    let proc = String::from_str(alloc, matches.get_str("proc").unwrap_or("/proc"))?;
    Ok(Some(Asked { task, proc, pids }))
}

fn task_of(matches: &ArgMatches<'_>) -> Option<Task> {
    let is_orphans = matches.get_str("orphans").unwrap_or("") == "true";
    match (matches.get_strs("why"), matches.get_strs("pids")) {
        (None, _) if is_orphans => Some(Task::Orphans),
        (None, _) => Some(Task::Table),
        (Some([pid, kind, id]), None) if !is_orphans => Some(Task::Why {
            pid: number_32(pid.as_bytes())?,
            kind: kind_named(kind)?,
            id: number_32(id.as_bytes())?,
        }),
        _ => None,
    }
}

/// A kind by the name that the lines have, or by that of its file in /proc/sysvipc.
fn kind_named(word: &str) -> Option<Kind> {
    match word.as_bytes() {
        b"queue" | b"msg" => Some(Kind::Queue),
        b"set" | b"sem" => Some(Kind::Sems),
        b"segment" | b"shm" => Some(Kind::Segment),
        _ => None,
    }
}
