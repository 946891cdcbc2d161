// Why a text is no journal.

ghost use Rattle.std.specs.Prelude.{◌≡◌};
ghost use Rattle.ipc_journal_text.specs.Gives.{IsAt, memory_lacked, out_of_memory};

use std::alloc::AllocError;
use thiserror::Error;

/// What is expected in a line.
#[derive(Clone, Copy, Debug, Error, PartialEq, Eq)]
pub enum Wanted {
    /// The first line, with the version of the text.
    #[error("'ipcsh journal 1'")]
    Heading,
    /// A limit by its name, and its value.
    #[error("'limit NAME VALUE' with a value in its range")]
    Limit,
    /// A client.
    #[error("'client N: effective UID:GID real UID:GID saved UID:GID groups GROUPS caps CAPS'")]
    Client,
    /// No further client.
    #[error("no more than 4,096 clients")]
    NoClient,
    /// A row.
    #[error("'at TIME client N: CALL' or '  PLACE.TURN client N: ANSWER'")]
    Row,
    /// The call of a row.
    #[error("a call behind the client")]
    Call,
    /// The answer of a row.
    #[error("'granted' or 'error NUMBER NAME RULE' behind the client")]
    Answer,
    /// The last line ends with a line feed.
    #[error("a line feed at its end")]
    LineFeed,
}

/// Why a line can't be read.
#[derive(Clone, Copy, Debug)]
pub(crate) enum Cause {
    /// An allocation failed.
    Memory,
    /// Something else is expected.
    Wanted(Wanted),
}

impl From<AllocError> for Cause {
    ghost from_gives = { λ _ cause. cause ≡ memory_lacked };

    fn from(_e: AllocError) -> Cause {
        Cause::Memory
    }
}

impl From<Wanted> for Cause {
    fn from(wanted: Wanted) -> Cause {
        Cause::Wanted(wanted)
    }
}

/// Why a text is no journal. Lines are counted from 1.
#[derive(Debug, Drop, Error)]
pub enum Unread {
    /// An allocation failed.
    #[error("no memory")]
    Memory,
    /// The line isn't what is expected there.
    #[error("line {line}: {wanted} is expected")]
    Line {
        /// Its number, one more than there are lines where the text ends too early.
        line: u64,
        /// What is expected.
        wanted: Wanted,
    },
    /// The line can be read, and a journal has it in another form.
    #[error("line {line}: a journal has this line as '{form}'")]
    Form {
        /// Its number.
        line: u64,
        /// The line as it is written.
        form: String,
    },
}

impl Unread {
    /// What comes of a cause in a line.
    pub(crate) fn at(line: u64, cause: Cause) -> Unread
        ensures { IsAt line cause result }
    {
        match cause {
            Cause::Memory => Unread::Memory,
            Cause::Wanted(wanted) => Unread::Line { line, wanted },
        }
    }
}

impl From<AllocError> for Unread {
    ghost from_gives = { λ _ unread. unread ≡ out_of_memory };

    fn from(_e: AllocError) -> Unread {
        Unread::Memory
    }
}
