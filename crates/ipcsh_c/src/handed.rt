//! The handles that an opening has written so far, and what they own. It is known in proofs alone, and no more than a code at run
//! time: so the handles are written by a plain loop, and only the small functions here are proved by hand.
ghost use Rattle.std.specs.Coded.{coded_list};
ghost use Rattle.std.specs.Prelude.{◌≡◌, List, [], ◌∷◌, ◌++◌};
ghost use types.Logic.{sem};
ghost use denote.RawPtr.{Ptr};
ghost use Rattle.ipcsh_c.specs.Owning.{OwnSeats};
ghost use Rattle.ipc_seat.specs.contracts.seat.Seat.{the_row as seat_row};
ghost use Rattle.ipc_seat.specs.declared.seat.Seat.{Seat as SeatValue};

use crate::loose::Loose;
use ipc_seat::Seat;
use std::marker::Model;

/// What an opening answers. It owns what the handles own.
pub(crate) struct Handed {
    pub(crate) code: i32,
    pub(crate) ghost handles: { List Ptr },
    pub(crate) ghost seats: { List SeatValue } by { coded_list seat_row.coded },
}

impl Model for Handed {
    ghost also_owns = { λ h. OwnSeats h.handles h.seats };
}

impl Handed {
    /// The answer before a handle is written.
    pub(crate) fn new(code: i32) -> Handed
        ensures { result ≡ record { code = code; handles = []; seats = [] } }
    {
        Handed { code }
    }

    /// One handle more. C doesn't see the type behind it.
    pub(crate) fn hand(&mut self, seat: Loose<Seat>) -> *mut u8
        ensures { self.new ≡ record self.old {
          handles = self.old.handles ++ result ∷ [];
          seats = self.old.seats ++ seat.value ∷ [];
        } }
    {
        let Loose { at } = seat;
        at as *mut u8
    }

    /// The answer. The handles own their clients from now on.
    pub(crate) fn end(self) -> i32
        ensures* owned { sem 𝓛 (OwnSeats self.handles self.seats) }
        ensures code { result ≡ self.code }
    {
        let Handed { code } = self;
        code
    }
}
