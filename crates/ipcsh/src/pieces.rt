// The text of a script, which comes in pieces.

ghost use Rattle.std.specs.Prelude.{◌≡◌, ◌+◌, ◌<◌, ◌≤◌, IfOk, IfErr, OnErr, length, take};
ghost use Rattle.std.specs.Io.KnownBytes.{Consumes, IsAtEnd, Keeps};
ghost use Rattle.ipcsh.specs.Scripts.{ReadsText, StopsReading};

use crate::runs::Fault;
use std::alloc::Global;
use std::io::Read;

/// The longest script, in bytes.
pub(crate) const INPUT_MAX: usize = 16_777_216;

/// How many bytes are asked for at once.
pub(crate) const PIECE: usize = 65536;

/// Reads a script to its end. The faults are those of the reader, input that is too long, and want of memory.
pub(crate) fn read_text<R: Read>(alloc: Global, reader: &mut R) -> Result<Vec<u8>, Fault>
    ensures ok { IfOk result (λ text. ReadsText (R.remaining reader.old) (R.remaining reader.new) text.items) }
    ensures fault { IfErr result (StopsReading (R.remaining reader.old) (R.remaining reader.new)) }
{
    let mut piece = vec![in alloc; 0u8; PIECE]?;
    read_pieces(alloc, reader, &mut piece)
}

/// Reads a script to its end, with a piece to read into.
fn read_pieces<R: Read>(alloc: Global, reader: &mut R, piece: &mut [u8]) -> Result<Vec<u8>, Fault>
    requires { length piece.old ≡ 65536 }
    ensures ok { IfOk result (λ text. ReadsText (R.remaining reader.old) (R.remaining reader.new) text.items) }
    ensures fault { IfErr result (StopsReading (R.remaining reader.old) (R.remaining reader.new)) }
{
    let mut text = Vec::new(alloc);
    'pieces: loop {
        let taken = read_piece(reader, piece, room_after(text.len()))?;
        if taken == 0 {
            return Ok(text);
        }
        if text.len() == INPUT_MAX {
            return Err(Fault::TooMuch);
        }
        text.extend_from_slice(&piece[..taken])?;
    }
}

/// How many bytes may be asked for behind so many. Byte 16777217 is asked for by itself, when all rows
/// before it are written.
pub(crate) fn room_after(count: usize) -> usize
    requires { count ≤ 16777216 }
    ensures some { 1 ≤ result }
    ensures piece { result ≤ 65536 }
    ensures within { count < 16777216 → count + result ≤ 16777216 }
    ensures one { count ≡ 16777216 → result ≡ 1 }
{
    if count == INPUT_MAX {
        1
    } else {
        (INPUT_MAX - count).min(PIECE)
    }
}

/// Reads at most so many bytes to the front of the piece. Each error of the reader is a fault, also an
/// interruption.
pub(crate) fn read_piece<R: Read>(
    reader: &mut R,
    piece: &mut [u8],
    most: usize,
) -> Result<usize, Fault>
    requires some { 1 ≤ most }
    requires room { most ≤ length piece.old }
    ensures bound { IfOk result (λ taken. taken ≤ most) }
    ensures bytes { IfOk result (λ taken. Consumes (R.remaining reader.old) (R.remaining reader.new) (take taken piece.new)) }
    ensures end { IfOk result (λ taken. taken ≡ 0 → IsAtEnd (R.remaining reader.new)) }
    ensures err { OnErr result (Keeps (R.remaining reader.old) (R.remaining reader.new)) }
    ensures fault { IfErr result (λ fault. fault ≡ Fault.Read) }
{
    match reader.read(&mut piece[..most]) {
        Ok(taken) => Ok(taken),
        Err(_) => Err(Fault::Read),
    }
}
