// Which threads a call has ended, by the names of their clients.

use crate::explainer::{Client, name_of};
use ipc_call::Memory;
use std::fmt::Write;
use thread_ends::{Ending, Left};

/// Appends a line that says which threads end or go on. Of an exec by the only thread of a process there is none.
pub(crate) fn print_threads(
    out: &mut String,
    clients: &[Client],
    left: &Left,
) -> Result<(), Memory> {
    let (pid, threads) = (left.pid, left.threads.as_slice());
    match (left.ending, threads) {
        (Ending::Last, _) => return write!(out, "process {pid} ended with its last thread\n"),
        (Ending::Executed, []) => return Ok(()),
        (Ending::Thread, _) => write!(out, "process {pid} goes on with ")?,
        (Ending::Killed, [_]) => write!(out, "process {pid} ended with its thread ")?,
        (Ending::Killed, _) => write!(out, "process {pid} ended with its threads ")?,
        (Ending::Executed, [_]) => write!(out, "the other thread of process {pid} ended: ")?,
        (Ending::Executed, _) => write!(out, "the other threads of process {pid} ended: ")?,
    }
    print_names(out, clients, threads)
}

fn print_names(out: &mut String, clients: &[Client], threads: &[u32]) -> Result<(), Memory> {
    let mut between = "";
    for client in threads {
        out.push_str(between)?;
        out.push_str(name_of(clients, *client))?;
        between = ", ";
    }
    out.push_str("\n")
}
