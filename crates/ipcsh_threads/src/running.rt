// A script whose clients have a thread each.

ghost use Rattle.std.specs.Prelude.{◌≡◌, ◌≤◌, ◌++◌, IfOk, length, string_bytes};
ghost use Rattle.ipc_history.specs.History.{run as run_of};
ghost use Rattle.ipc_model.specs.Listings.{lines_of};
ghost use Rattle.ipcsh.specs.Runs.{transfer};
ghost use Rattle.ipcsh_threads.specs.Rows.{count_rows, object_lines};
ghost use Rattle.ipcsh_threads.specs.Threads.{CanRun, EndsSo, ThreadsEndBy, setup_of};

use crate::rows::{print_counts, print_objects};
use ipc_call::Memory;
use ipc_jobs::{OpenGate, ThreadsEnd, run_threads};
use ipc_text::Name;
use ipcsh::{Fault, Listener, Script, Summary, read_script_with, write_bytes};
use std::alloc::Global;
use std::io::{Read, Write};
use std::sync::Wait;
use std::thread::Threads;

/// Reads a script in the language of `docs/LANGUAGE.md`, the project's own, to its end, and writes the rows of its bad
/// lines. Where a client has a call, it then makes the calls of each client, in the order of its lines, in a thread of
/// its own. When all have ended it writes for each client how many calls it made and how many were refused, and for how
/// many an allocation failed if for any; then the lines of all objects. It may never return: a call that waits ends by
/// another client's call alone. After `Read` and `TooMuch` nothing was written.
pub fn threads<R: Threads + Sync + Wait, I: Read, W: Write>(
    rt: &R,
    alloc: Global,
    reader: &mut I,
    writer: &mut W,
) -> Result<Summary, Fault>
    ensures { ThreadsEndBy (transfer
        (I.remaining reader.old) (I.remaining reader.new)
        (W.contents writer.old) (W.contents writer.new)) result }
{
    threads_with(rt, alloc, reader, writer, &mut ())
}

/// As `threads`, and a listener hears of the lines, and that rows were written when those of all bad lines were.
pub fn threads_with<R: Threads + Sync + Wait, I: Read, W: Write, L: Listener>(
    rt: &R,
    alloc: Global,
    reader: &mut I,
    writer: &mut W,
    listener: &mut L,
) -> Result<Summary, Fault>
    ensures { ThreadsEndBy (transfer
        (I.remaining reader.old) (I.remaining reader.new)
        (W.contents writer.old) (W.contents writer.new)) result }
{
    let script = read_script_with(alloc, reader, listener)?;
    write_bytes(writer, script.rows.as_bytes())?;
    listener.written();
    let (lines, bad) = (script.lines, script.bad);
    if !script.has_jobs {
        return Ok(Summary {
            lines,
            bad,
            events: 0,
        });
    }
    let ending = run_script(rt, alloc, script)?;
    write_bytes(writer, ending.rows.as_bytes())?;
    Ok(Summary {
        lines,
        bad,
        events: ending.events,
    })
}

/// What the threads leave behind.
#[derive(Drop)]
struct Ending {
    /// The rows at the end.
    rows: String,
    /// The calls that were entered.
    events: u64,
}

/// Makes the calls of a script.
fn run_script<R: Threads + Sync + Wait>(
    rt: &R,
    alloc: Global,
    script: Script,
) -> Result<Ending, Memory>
    requires { CanRun script }
    ensures { IfOk result (EndsSo (setup_of script)) }
{
    let Script {
        names,
        clients,
        limits,
        jobs,
        ..
    } = script;
    let end = run_threads(rt, alloc, limits, clients, jobs, &OpenGate)?;
    ending_of(alloc, names.as_slice(), &end)
}

fn ending_of(alloc: Global, names: &[Name], end: &ThreadsEnd) -> Result<Ending, Memory>
    requires { length names.now ≤ length end.now.counts.items }
    ensures { IfOk result (λ e. (string_bytes e.rows ≡ count_rows names.now end.now.counts.items ++ object_lines (lines_of (run_of end.now.space))) × (e.events ≡ length end.now.space.events)) }
{
    let lines = end.space.lines()?;
    let mut rows = String::new(alloc);
    print_counts(&mut rows, names, end.counts.as_slice())?;
    print_objects(&mut rows, lines.as_slice())?;
    let events = end.space.events();
    Ok(Ending { rows, events })
}
