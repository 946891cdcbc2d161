//! The program `ipcsh_journal`: runs a script and writes its journal as text, or replays such a text and says where it first
//! differs from what the definitions give. Status 0: written, or the same. 1: a line of the script was bad, or the journal
//! differs. 2: a fault, or a text that is no journal. 3: words that the program doesn't take.
#![tactic(auto)]

mod faults;
mod listener;
mod words;

ghost use Rattle.std.specs.Prelude.{◌≡◌, ◌≤◌, ◌++◌, IfOk, IsTrue, OnOk, string_bytes, vec_len};
ghost use Rattle.ipc_call.specs.Limits.{are_in_range};
ghost use Rattle.ipc_history.specs.History.{rows_of, run};
ghost use Rattle.ipc_journal_text.specs.JournalText.{text_of};

use crate::faults::Fault;
use crate::listener::Teller;
use crate::words::{Asked, Task};
use ipc_journal_replay::print_difference;
use ipc_journal_text::{Recorded, Unread, read_journal, write_journal};
use ipc_space::{Compared, Space, compare};
use ipcsh::run_text;
use program_words::{asked, read_whole};
use std::alloc::{AllocError, Global};
use std::io::ErrorKind;
use std::process::ExitCode;
use std::rt::{Env, Files};

/// A line of the script was bad, or the journal differs.
const OTHERWISE: u8 = 1;

/// A fault stopped the program, or the text is no journal.
const FAULT: u8 = 2;

/// Words that the program doesn't take.
const USAGE: u8 = 3;

/// What `--help` prints, and standard error where the program doesn't take its words.
const HELP: &str = "usage: ipcsh_journal [FILE] | --replay [FILE]";

/// Does what is asked, and answers the status.
fn run<R: Env + Files + Input + Print + Eprint + AllocGlobal>(rt: &R) -> Result<u8, Fault> {
    let Some(asked) = asked::<R, Asked>(rt)? else {
        return Ok(USAGE);
    };
    let mut out = String::new(rt.alloc());
    let status = answer(rt, &asked, &mut out)?;
    match rt.print(out.as_str()) {
        Ok(()) => Ok(status),
        Err(_) => Err(Fault::Write),
    }
}

/// Appends what is asked for, and answers the status.
fn answer<R: Files + Input + Eprint + AllocGlobal>(
    rt: &R,
    asked: &Asked,
    out: &mut String,
) -> Result<u8, Fault> {
    match asked.task {
        Task::Help => {
            print_help(out)?;
            Ok(0)
        }
        Task::Record => {
            let script = input(rt, &asked.file)?;
            record(rt, script.as_slice(), out)
        }
        Task::Replay => {
            let text = input(rt, &asked.file)?;
            let recorded = recorded(rt.alloc(), &asked.file, text.as_slice())?;
            replay(recorded, out)
        }
    }
}

fn print_help(out: &mut String) -> Result<(), AllocError> {
    out.push_str(HELP)?;
    out.push_str("\n")
}

/// What the file has, or standard input where none is named.
fn input<R: Files + Input + AllocGlobal>(rt: &R, file: &Option<String>) -> Result<Vec<u8>, Fault> {
    match read_whole(rt, file) {
        Ok(text) => Ok(text),
        Err(error) if error.kind() == ErrorKind::OutOfMemory => Err(Fault::Memory),
        Err(_) => Err(Fault::Read(name_of(rt.alloc(), file)?)),
    }
}

/// The name of what is read, as it is told.
fn name_of(alloc: Global, file: &Option<String>) -> Result<String, AllocError> {
    let name = match file {
        Some(file) => file.as_str(),
        None => "standard input",
    };
    String::from_str(alloc, name)
}

/// Runs the script, and appends its journal.
fn record<R: Eprint + AllocGlobal>(rt: &R, script: &[u8], out: &mut String) -> Result<u8, Fault> {
    let alloc = rt.alloc();
    let mut teller = Teller { to: rt, alloc };
    let ended = run_text(alloc, script, &mut teller)?;
    let Some(space) = &ended.space else {
        return Err(Fault::NoCall);
    };
    append_journal(alloc, space, out)?;
    Ok(if ended.summary.bad == 0 { 0 } else { OTHERWISE })
}

/// Appends the journal of a namespace, with its limits and its clients' credentials at the start.
fn append_journal(alloc: Global, space: &Space, out: &mut String) -> Result<(), Fault>
    ensures { OnOk result (string_bytes out.new ≡ string_bytes out.old ++ text_of (run space.now).limits space.now.clients (rows_of space.now)) }
{
    let _few = space.clients();
    let text = write_journal(alloc, &space.limits(), space.opening(), space.journal())?;
    Ok(out.push_str(text.as_str())?)
}

/// The journal that the text is.
fn recorded(alloc: Global, file: &Option<String>, text: &[u8]) -> Result<Recorded, Fault>
    ensures limits { IfOk result (λ read. IsTrue (are_in_range read.limits)) }
    ensures some { IfOk result (λ read. 1 ≤ vec_len read.clients) }
    ensures few { IfOk result (λ read. vec_len read.clients ≤ 4096) }
{
    match read_journal(alloc, text) {
        Ok(recorded) => Ok(recorded),
        Err(Unread::Memory) => Err(Fault::Memory),
        Err(unread) => Err(Fault::Unread(name_of(alloc, file)?, unread)),
    }
}

/// Replays a journal, and appends whether it is the same.
fn replay(recorded: Recorded, out: &mut String) -> Result<u8, Fault>
    requires limits { IsTrue (are_in_range recorded.limits) }
    requires some { 1 ≤ vec_len recorded.clients }
    requires few { vec_len recorded.clients ≤ 4096 }
{
    let Recorded {
        limits,
        clients,
        rows,
    } = recorded;
    match compare(limits, clients, rows.as_slice())? {
        Compared::Same(space) => {
            drop(space);
            out.push_str("same\n")?;
            Ok(0)
        }
        Compared::Differs(count, space) => {
            print_difference(out, rows.as_slice(), count, &space)?;
            Ok(OTHERWISE)
        }
    }
}

fn main(rt: HostRuntime) -> ExitCode {
    let status = match run(&rt) {
        Ok(USAGE) => {
            let _ = eprintln!(rt; "ipcsh_journal: {HELP}");
            USAGE
        }
        Ok(status) => status,
        Err(fault) => {
            let _ = eprintln!(rt; "ipcsh_journal: {fault}");
            FAULT
        }
    };
    ExitCode::from(status)
}
