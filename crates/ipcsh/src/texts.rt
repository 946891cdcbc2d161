// A script that is there whole, and what its run leaves.

ghost use Rattle.std.specs.Prelude.{IfOk};
ghost use Rattle.ipcsh.specs.Ended.{Leaves};

use crate::input::ScriptInput;
use crate::listeners::Listener;
use crate::pieces::INPUT_MAX;
use crate::runs::{Fault, Summary};
use ipc_space::Space;
use std::alloc::Global;

/// What the run of a script leaves.
#[derive(Drop)]
pub struct Ended {
    /// What the run did.
    pub summary: Summary,
    /// Its rows.
    pub rows: String,
    /// The namespace, once a call has started it.
    pub space: Option<Space>,
}

/// Runs a script as `run` does, but from a text that is there whole: its rows and its namespace are left. The faults are a
/// text of more than 16777216 bytes, and want of memory.
pub fn run_text<L: Listener>(alloc: Global, text: &[u8], listener: &mut L) -> Result<Ended, Fault>
    ensures { IfOk result (λ ended. Leaves text.now ended) }
{
    if text.len() > INPUT_MAX {
        return Err(Fault::TooMuch);
    }
    let mut input = ScriptInput::new(alloc);
    input.take(alloc, text, listener)?;
    input.finish(alloc, listener)?;
    listener.written();
    let ScriptInput { session, rows, .. } = input;
    let summary = session.summary();
    let space = session.into_space();
    Ok(Ended {
        summary,
        rows,
        space,
    })
}
