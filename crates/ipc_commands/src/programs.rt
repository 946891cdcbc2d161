// The words of the program itself.

ghost use Rattle.std.specs.Prelude.{◌≡◌, IfOk, map};
ghost use Rattle.clap.specs.Words.{app_of};
ghost use Rattle.ipc_commands.specs.Programs.{ipcsh_app, program_in};

use crate::options::matches;
use clap::Command;
use std::alloc::{AllocError, Global};

/// What the program `ipcsh` does with its script.
#[derive(Clone, Copy, Debug, PartialEq, Eq)]
pub enum Program {
    /// Answers each line as it comes.
    Script,
    /// Reads all lines, and makes the calls of each client in a thread of its own.
    Threads,
}

/// What the program `ipcsh` does by its words, of which the first is its own name; `None` where it doesn't take them.
/// Behind its name it takes the subcommand `threads` or none, and `--` behind that. `AllocError` comes where
/// memory was refused.
pub fn program_of(alloc: Global, words: &[&str]) -> Result<Option<Program>, AllocError>
    ensures { IfOk result (λ program. program ≡ program_in ipcsh_app (map (λ word. word.now) words.now)) }
{
    let Some(matches) = matches(ipcsh(alloc)?, words)? else {
        return Ok(None);
    };
    match matches.subcommand_name() {
        Some(_) => Ok(Some(Program::Threads)),
        None => Ok(Some(Program::Script)),
    }
}

fn ipcsh<'a>(alloc: Global) -> Result<Command<'a>, AllocError>
    ensures { IfOk result (λ command. app_of command ≡ ipcsh_app) }
{
    Command::new(alloc, "ipcsh")
        .disable_help_subcommand(true)
        .subcommand(Command::new(alloc, "threads"))
}
