//! The program `ipcsh`: runs the script on standard input and prints its rows, or makes the calls of each of its clients
//! in a thread of its own. Status 0: all lines were good. 1: some line was bad. 2: a fault. 3: words that the program
//! doesn't take.
#![tactic(auto)]

mod listener;

use crate::listener::Explainer;
use ipc_commands::{Program, program_of};
use ipcsh::{Fault, Listener, Summary, run_with};
use ipcsh_threads::threads_with;
use std::alloc::{AllocError, Global};
use std::env::Args;
use std::io::ErrorKind;
use std::process::ExitCode;
use std::rt::Env;
use std::sync::Wait;
use std::thread::Threads;
use std::{env, io};

/// A run that read all its lines, some of them bad.
const BAD_LINE: u8 = 1;

/// A run that a fault has stopped.
const FAULT: u8 = 2;

/// Words that the program doesn't take.
const USAGE: u8 = 3;

/// What the program does by the words that it was given; `None` where it doesn't take them. A word that is no text it
/// doesn't take.
fn program<R: Env + AllocGlobal>(rt: &R) -> Result<Option<Program>, Fault> {
    match env::args(rt) {
        Ok(given) => Ok(named(rt.alloc(), given)?),
        Err(error) if error.kind() == ErrorKind::OutOfMemory => Err(Fault::Memory),
        Err(_) => Ok(None),
    }
}

fn named(alloc: Global, given: Args) -> Result<Option<Program>, AllocError> {
    let texts: Vec<String> = given.collect(alloc)?;
    let words: Vec<&str> = texts.iter().map(|text| text.as_str()).collect(alloc)?;
    program_of(alloc, words.as_slice())
}

/// Runs the script on standard input.
fn run_script<R: Env + Input + Print + Eprint + Threads + Sync + Wait + AllocGlobal>(
    rt: &R,
) -> Result<u8, Fault> {
    let Some(program) = program(rt)? else {
        return Ok(USAGE);
    };
    let mut explainer = Explainer::new(rt, rt.alloc());
    let ran = run_program(rt, program, &mut explainer);
    if ran.is_ok() {
        explainer.finish();
    }
    drop(explainer);
    Ok(if ran?.bad == 0 { 0 } else { BAD_LINE })
}

/// Runs it as one of the programs, which lets the listener hear of its lines.
fn run_program<R: Input + Print + Threads + Sync + Wait + AllocGlobal, L: Listener>(
    rt: &R,
    program: Program,
    listener: &mut L,
) -> Result<Summary, Fault> {
    let (alloc, mut reader, mut writer) = (rt.alloc(), rt.reader(), io::writer(rt));
    match program {
        Program::Script => run_with(alloc, &mut reader, &mut writer, listener),
        Program::Threads => threads_with(rt, alloc, &mut reader, &mut writer, listener),
    }
}

fn main(rt: HostRuntime) -> ExitCode {
    let status = match run_script(&rt) {
        Ok(USAGE) => {
            let _ = eprintln!(rt; "ipcsh: usage: ipcsh [threads]");
            USAGE
        }
        Ok(status) => status,
        Err(fault) => {
            let _ = eprintln!(rt; "ipcsh: {fault}");
            FAULT
        }
    };
    ExitCode::from(status)
}
