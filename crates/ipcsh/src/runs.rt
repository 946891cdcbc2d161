// A run of a script from its first byte to its end or a fault.

ghost use Rattle.std.specs.Prelude.{◌≡◌, [], IfOk, IfErr, length, string_bytes};
ghost use Rattle.ipcsh.specs.Runs.{EndsBy, StopsBy, WritesWhole, transfer};
ghost use Rattle.ipcsh.specs.Session.{fresh_session};
ghost use Rattle.ipcsh.specs.declared.runs.Fault.TheVariants.{Memory as out_of_memory};

use crate::input::ScriptInput;
use crate::listeners::Listener;
use crate::pieces::{INPUT_MAX, PIECE, read_piece, room_after};
use std::alloc::{AllocError, Global};
use std::io::{Read, Write};
use thiserror::Error;

/// What a run did. The counts are those of the lines and calls that were read to the end.
#[derive(Clone, Copy, Debug, PartialEq, Eq)]
pub struct Summary {
    /// The lines that were read, skipped ones too.
    pub lines: u64,
    /// The bad ones among them.
    pub bad: u64,
    /// The calls that were entered in the journal.
    pub events: u64,
}

/// Why a run stopped before the end of its script.
#[derive(Clone, Copy, Debug, Error, PartialEq, Eq)]
pub enum Fault {
    /// A read failed or was interrupted. The rows of all complete lines were written.
    #[error("read failed")]
    Read,
    /// A write failed, was interrupted or took no byte. A front of the rows of the complete lines was written; where the
    /// input had ended, of those of all its lines.
    #[error("write failed")]
    Write,
    /// The input has more than 16777216 bytes. The rows of their complete lines were written.
    #[error("input too long")]
    TooMuch,
    /// Memory was refused to the reader or the printer, or to the start of the namespace. A front of
    /// the rows of the complete lines was written.
    #[error("no memory")]
    Memory,
}

impl From<AllocError> for Fault {
    ghost from_gives = { λ _ fault. fault ≡ out_of_memory };

    fn from(_e: AllocError) -> Fault {
        Fault::Memory
    }
}

/// Runs a script in the language of `docs/LANGUAGE.md`, the project's own: reads it to its end, makes
/// its calls in one namespace, and writes a row for each reply. The rows of the lines that have come are
/// written before more input is asked for. Nothing is read behind the end of the input, nor behind byte
/// 16777217.
pub fn run<R: Read, W: Write>(
    alloc: Global,
    reader: &mut R,
    writer: &mut W,
) -> Result<Summary, Fault>
    ensures { EndsBy (transfer
        (R.remaining reader.old) (R.remaining reader.new)
        (W.contents writer.old) (W.contents writer.new)) result }
{
    run_with(alloc, reader, writer, &mut ())
}

/// As `run`, and a listener hears of the lines. It hears that rows were written only where all of them were.
pub fn run_with<R: Read, W: Write, L: Listener>(
    alloc: Global,
    reader: &mut R,
    writer: &mut W,
    listener: &mut L,
) -> Result<Summary, Fault>
    ensures { EndsBy (transfer
        (R.remaining reader.old) (R.remaining reader.new)
        (W.contents writer.old) (W.contents writer.new)) result }
{
    let mut piece = vec![in alloc; 0u8; PIECE]?;
    let mut input = ScriptInput::new(alloc);
    let answered = answer_all(alloc, reader, writer, &mut piece, &mut input, listener);
    drop(input);
    answered
}

/// Answers a script from its first byte to its end or a fault, with a piece to read into.
fn answer_all<R: Read, W: Write, L: Listener>(
    alloc: Global,
    reader: &mut R,
    writer: &mut W,
    piece: &mut [u8],
    input: &mut ScriptInput,
    listener: &mut L,
) -> Result<Summary, Fault>
    requires piece { length piece.old ≡ 65536 }
    requires session { input.old.session ≡ fresh_session }
    requires pending { input.old.pending ≡ [] }
    requires rows { string_bytes input.old.rows ≡ [] }
    ensures ok { IfOk result (WritesWhole (transfer
        (R.remaining reader.old) (R.remaining reader.new)
        (W.contents writer.old) (W.contents writer.new))) }
    ensures fault { IfErr result (StopsBy (transfer
        (R.remaining reader.old) (R.remaining reader.new)
        (W.contents writer.old) (W.contents writer.new))) }
{
    let mut count = 0;
    'pieces: loop {
        let taken = read_piece(reader, piece, room_after(count))?;
        if taken == 0 {
            input.finish(alloc, listener)?;
            input.flush(writer)?;
            listener.written();
            input.session.tell_end(listener);
            return Ok(input.session.summary());
        }
        if count == INPUT_MAX {
            return Err(Fault::TooMuch);
        }
        count += taken;
        input.take(alloc, &piece[..taken], listener)?;
        input.flush(writer)?;
        listener.written();
    }
}
