//! The program `ipcsh_explain`: runs a script as `ipcsh` does, and prints above each row its line and below it what it means. Status 0: all lines
//! were good. 1: some line was bad. 2: a fault. 3: words that the program doesn't take.
#![tactic(auto)]

mod pictures;
mod words;

use crate::pictures::{refuse_other, write_picture};
use crate::words::{Asked, Task};
use client_rights::print_rights;
use ipc_call::Kind;
use ipc_explain::{Explained, explain};
use ipcsh::{Fault, write_bytes};
use perm_words::kind_name;
use program_words::{asked, read_whole};
use run_watch::left_by;
use std::alloc::AllocError;
use std::io;
use std::io::Error;
use std::process::ExitCode;
use std::rt::{Env, Files};
use thiserror::Error;

/// A run that read all its lines, some of them bad.
const BAD_LINE: u8 = 1;

/// A fault stopped the program.
const FAULT: u8 = 2;

/// Words that the program doesn't take.
const USAGE: u8 = 3;

/// What `--help` prints, and standard error where the program doesn't take its words.
const HELP: &str = "usage: ipcsh_explain [--svg FILE | --who KIND ID] [SCRIPT]";

/// Why the program stopped.
#[derive(Debug, Drop, Error)]
enum Failure {
    /// The script can't be read.
    #[error("{0}")]
    File(Error),
    /// The picture can't be written to this file.
    #[error("{0}: {1}")]
    Picture(String, Error),
    /// This file holds something else than a picture.
    #[error("{0}: it is no picture, so --svg doesn't overwrite it")]
    NoPicture(String),
    /// At the end of the script there is no object of this kind and identifier.
    #[error("at the end of the script there is no {0} {1}")]
    NoObject(&'static str, u32),
    /// The run has stopped.
    #[error("{0}")]
    Run(Fault),
    /// An allocation failed.
    #[error("no memory")]
    Memory,
}

impl From<AllocError> for Failure {
    fn from(_e: AllocError) -> Failure {
        Failure::Memory
    }
}

impl From<Fault> for Failure {
    fn from(fault: Fault) -> Failure {
        Failure::Run(fault)
    }
}

/// Does what is asked, and answers the status.
fn run<R: Env + Files + Input + Print + Eprint + AllocGlobal>(rt: &R) -> Result<u8, Failure> {
    let Some(asked) = asked::<R, Asked>(rt)? else {
        return Ok(USAGE);
    };
    match &asked.task {
        Task::Help => {
            write_bytes(&mut io::writer(rt), HELP.as_bytes())?;
            write_bytes(&mut io::writer(rt), b"\n")?;
            Ok(0)
        }
        Task::Explain => explain_alone(rt, &asked.script),
        Task::Picture(path) => {
            refuse_other(rt, path.as_str())?;
            let script = script_of(rt, &asked.script)?;
            explain_with_picture(rt, script.as_slice(), path.as_str())
        }
        Task::Who { kind, id } => {
            let script = script_of(rt, &asked.script)?;
            tell_who(rt, script.as_slice(), *kind, *id)
        }
    }
}

/// Explains a script as it is read.
fn explain_alone<R: Files + Input + Print + AllocGlobal>(
    rt: &R,
    script: &Option<String>,
) -> Result<u8, Failure> {
    match script {
        Some(_) => print(
            rt,
            explain(rt.alloc(), &mut script_of(rt, script)?.as_slice())?,
        ),
        None => print(rt, explain(rt.alloc(), &mut rt.reader())?),
    }
}

/// The script, read whole.
fn script_of<R: Files + Input + AllocGlobal>(
    rt: &R,
    script: &Option<String>,
) -> Result<Vec<u8>, Failure> {
    match read_whole(rt, script) {
        Ok(text) => Ok(text),
        Err(error) => Err(Failure::File(error)),
    }
}

/// Explains a script, and then writes its picture to a file.
fn explain_with_picture<R: Files + Print + AllocGlobal>(
    rt: &R,
    script: &[u8],
    path: &str,
) -> Result<u8, Failure> {
    let mut reader = script;
    let status = print(rt, explain(rt.alloc(), &mut reader)?)?;
    write_picture(rt, script, path)?;
    Ok(status)
}

/// Prints who may do what to an object when the script has ended.
fn tell_who<R: Print + Eprint + AllocGlobal>(
    rt: &R,
    script: &[u8],
    kind: Kind,
    id: u32,
) -> Result<u8, Failure> {
    let left = left_by(rt.alloc(), script, kind, id)?;
    let bad = left.summary.bad;
    if bad > 0 {
        let _ = eprintln!(rt;
            "ipcsh_explain: bad lines in the script: {bad}; a run without --who tells of each"
        );
    }
    let Some(object) = &left.object else {
        return Err(Failure::NoObject(kind_name(kind), id));
    };
    let mut out = String::new(rt.alloc());
    print_rights(rt.alloc(), &mut out, object, left.clients.as_slice())?;
    write_bytes(&mut io::writer(rt), out.as_bytes())?;
    Ok(if bad == 0 { 0 } else { BAD_LINE })
}

/// Prints what a run has printed, with its notes.
fn print<R: Print + AllocGlobal>(rt: &R, explained: Explained) -> Result<u8, Failure> {
    write_bytes(&mut io::writer(rt), explained.text.as_slice())?;
    let summary = explained.ended?;
    Ok(if summary.bad == 0 { 0 } else { BAD_LINE })
}

fn main(rt: HostRuntime) -> ExitCode {
    let status = match run(&rt) {
        Ok(USAGE) => {
            let _ = eprintln!(rt; "ipcsh_explain: {HELP}");
            USAGE
        }
        Ok(status) => status,
        Err(failure) => {
            let _ = eprintln!(rt; "ipcsh_explain: {failure}");
            FAULT
        }
    };
    ExitCode::from(status)
}
