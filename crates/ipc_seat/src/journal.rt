//! A client reads the text of its service's journal.

ghost use Rattle.std.specs.Prelude.{◌≡◌};
ghost use Rattle.ipc_seat.specs.Journals.{read_of, ReadsJournal};

use crate::seat::{Phase, Seat, SeatError};
use journal_reader::Unread;

impl Seat {
    /// Reads on in the text of the service's journal, where this client reads it: as many bytes as fit, of those that are there.
    /// Each byte is read once; 0 bytes are for a journal with no more rows as yet. A client whose call is in flight reads nothing.
    pub fn read_journal(&mut self, out: &mut [u8]) -> Result<usize, SeatError>
        ensures { ReadsJournal self.old out.old self.new out.new result }
    {
        let Some(reader) = &mut self.journal else {
            return Err(SeatError::NoJournal);
        };
        match &mut self.phase {
            Phase::Idle(member) => told(reader.read(member, out)),
            Phase::Answered(member) => told(reader.read(member, out)),
            Phase::InFlight(_) => Err(SeatError::InFlight),
            Phase::Left => Err(SeatError::Left),
        }
    }
}

fn told(read: Result<usize, Unread>) -> Result<usize, SeatError>
    ensures { result ≡ read_of read }
{
    Ok(read?)
}
