//! A client and how far it is.

ghost use Rattle.std.specs.Prelude.{◌≡◌, pos};
ghost use Rattle.ipc_seat.specs.Codes.{code_of_error};

use ipc_abi::BadRequest;
use ipc_call::Reply;
use ipc_member::{Member, Posted};
use journal_reader::{Reader, Unread};
use std::alloc::Global;

/// A client of a service. The reply counts where its call is answered alone, and stands beside the phase, so that this is
/// small enough to be moved.
#[derive(Drop)]
pub struct Seat {
    pub(crate) alloc: Global,
    pub(crate) phase: Phase,
    pub(crate) reply: Reply,
    /// The text of the service's journal, where this client reads it.
    pub(crate) journal: Option<Box<Reader>>,
}

/// How far it is.
#[derive(Drop)]
pub enum Phase {
    /// It asks nothing.
    Idle(Member),
    /// Its call is in flight.
    InFlight(Posted),
    /// Its call has ended, and its reply isn't taken.
    Answered(Member),
    /// It has left.
    Left,
}

/// Why a client doesn't do what is asked of it. It is then as it was.
#[derive(Clone, Copy, Debug, PartialEq, Eq)]
pub enum SeatError {
    /// Its call is in flight.
    InFlight,
    /// It has a reply to take.
    Untaken,
    /// It has no call.
    NoCall,
    /// It has left.
    Left,
    /// The request has the code of no operation, or of no kind.
    Unknown,
    /// The lists of the reply don't fit. Its numbers are there, and it can still be taken.
    NoRoom,
    /// An allocation fails (ENOMEM).
    Memory,
    /// Another client combines, or takes rows of the journal.
    Combining,
    /// The client reads no journal, or another one has taken rows of it.
    NoJournal,
}

impl SeatError {
    /// Its code.
    pub(crate) fn code(self) -> i32
        ensures { result ≡ code_of_error self }
    {
        match self {
            SeatError::InFlight => -1,
            SeatError::Untaken => -2,
            SeatError::NoCall => -3,
            SeatError::Left => -4,
            SeatError::Unknown => -5,
            SeatError::NoRoom => -6,
            SeatError::Memory => -7,
            SeatError::Combining => -11,
            SeatError::NoJournal => -12,
        }
    }
}

impl From<BadRequest> for SeatError {
    ghost use Rattle.ipc_seat.specs.Codes.{error_of_request};

    ghost from_gives = { λ bad error. error ≡ error_of_request bad };

    fn from(bad: BadRequest) -> SeatError {
        match bad {
            BadRequest::Unknown => SeatError::Unknown,
            BadRequest::Memory => SeatError::Memory,
        }
    }
}

impl From<Unread> for SeatError {
    ghost use Rattle.ipc_seat.specs.Codes.{error_of_unread};

    ghost from_gives = { λ unread error. error ≡ error_of_unread unread };

    fn from(unread: Unread) -> SeatError {
        match unread {
            Unread::Busy(_) => SeatError::Combining,
            Unread::NoJournal => SeatError::NoJournal,
            Unread::Memory => SeatError::Memory,
        }
    }
}
