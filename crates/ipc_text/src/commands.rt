// The calls that one line of a client makes.

ghost use Rattle.std.specs.Prelude.{◌≡◌, [], ◌∷◌, IfOk, None, Some};
ghost use Rattle.ipc_text.specs.Commands.{command_by, command_of as command_words};
ghost use Rattle.ipc_text.specs.Parts.{listed};
ghost use Rattle.ipc_words.specs.Words.{words_of};

use crate::calls::call_named;
use crate::reasons::Reason;
use ipc_call::{Call, Items};
use ipc_commands::{Part, Tool, parts_of};
use ipc_words::split_word;
use std::alloc::{AllocError, Global};
use std::marker::Model;
use std::slice;

/// The calls that one line of a client makes, in their order: at least one. One alone takes no memory of its own.
#[derive(Debug, Drop)]
pub struct Command {
    parts: Parts,
}

/// The calls of a line, apart.
#[derive(Debug, Drop)]
pub enum Parts {
    /// One alone.
    One(Part),
    /// Any number.
    Many(Vec<Part>),
}

impl Model for Command {
    ghost use Rattle.std.specs.Prelude.{List};
    ghost use Rattle.ipc_commands.specs.declared.parts.Part.{Part as OnePart};
    ghost use Rattle.ipc_text.specs.Parts.{listed};

    ghost Value = { List OnePart };

    ghost view = { λ c. listed c.parts };
}

impl Command {
    /// One call.
    pub fn of(call: Call) -> Command
        ensures { result ≡ Part.Plain call ∷ [] }
    {
        Command {
            parts: Parts::One(Part::Plain(call)),
        }
    }

    /// The calls of a list.
    fn many(parts: Items<Part>) -> Command
        ensures { result ≡ parts }
    {
        Command {
            parts: Parts::Many(parts.into_vec()),
        }
    }

    /// The calls.
    pub fn as_slice(&self) -> &[Part]
        ensures { result.now ≡ self.now }
    {
        match &self.parts {
            Parts::One(part) => slice::from_ref(part),
            Parts::Many(parts) => parts.as_slice(),
        }
    }

    /// The calls, apart.
    pub fn into_parts(self) -> Parts
        ensures { listed result ≡ self }
    {
        self.parts
    }
}

/// The calls that the words behind a client's name make: those of ipcs(1), ipcrm(1) or ipcmk(1), whose words else are a
/// bad command, or one call, whose words else are a bad line. `AllocError` comes where memory was refused. The words of
/// a call are the project's own, with the names and the order of arguments of the man pages (msgget(2), msgop(2),
/// msgctl(2), semget(2), semop(2), semctl(2), shmget(2), shmop(2), shmctl(2), _exit(2)); those of `interrupt`,
/// `setcreds`, `shmread` and `shmwrite` are the project's own.
#[tactic(auto, unfolding(crate::specs::Commands::command_of))]
pub fn command_of(alloc: Global, words: &[u8]) -> Result<Result<Command, Reason>, AllocError>
    ensures { IfOk result (λ command. command ≡ command_words (words_of words.now)) }
{
    let Some((word, arguments)) = split_word(words) else {
        return Ok(Err(Reason::BadLine));
    };
    match Tool::from_word(word) {
        Some(tool) => tool_parts(alloc, tool, arguments),
        None => plain_parts(alloc, word, arguments),
    }
}

// The calls of a command with these arguments.
#[cold]
#[inline(never)]
fn tool_parts(
    alloc: Global,
    tool: Tool,
    arguments: &[u8],
) -> Result<Result<Command, Reason>, AllocError>
    ensures { IfOk result (λ command. command ≡ command_by (Some tool) [] (words_of arguments.now)) }
{
    match parts_of(alloc, tool, arguments)? {
        Some(parts) => Ok(Ok(Command::many(parts))),
        None => Ok(Err(Reason::BadCommand)),
    }
}

// The one call of this name with these arguments.
fn plain_parts(
    alloc: Global,
    word: &[u8],
    arguments: &[u8],
) -> Result<Result<Command, Reason>, AllocError>
    ensures { IfOk result (λ command. command ≡ command_by None word.now (words_of arguments.now)) }
{
    match call_named(alloc, word, arguments)? {
        Some(call) => Ok(Ok(Command::of(call))),
        None => Ok(Err(Reason::BadLine)),
    }
}
