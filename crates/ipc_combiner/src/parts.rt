//! A client takes rows of the journal that weren't handed out, while the service goes on.
ghost use Rattle.std.specs.Prelude.{◌≡◌, ◌+◌, box_value, vec_len, IfOk, OnErr};
ghost use Rattle.ipc_combiner.specs.Parts.{Takes, TriedToTake};
ghost use Rattle.ipc_combiner.specs.Serving.{entries_in};
ghost use Rattle.ipc_combiner.specs.States.{IsOf};

use crate::entries::Keeping;
use crate::shared::Shared;
use crate::states::{Idle, Service};
use ipc_call::JournalRow;

/// Why no rows were taken.
#[derive(Clone, Copy, Debug, PartialEq, Eq)]
pub enum Untaken {
    /// This other client combined, or took rows.
    Busy(u32),
    /// So many rows were handed out, which isn't the number that was asked for.
    Elsewhere(u64),
    /// The service keeps its journal whole, or nothing of it.
    NoParts,
}

impl Idle {
    /// Takes the rows of the journal from this one on, counted from 0, to its end: all that weren't handed out. It is 0 the first
    /// time, and then where the part before ended, so the parts join up.
    pub fn take_rows(&mut self, service: &Service, from: u64) -> Result<Vec<JournalRow>, Untaken>
        requires { IsOf service.now.list self.old.joined }
        ensures { TriedToTake service.now.list self.old.joined self.new.joined from result }
    {
        let own = self.joined.client();
        let mut state = match self.joined.seize(&service.list) {
            Ok(state) => state,
            Err(client) => return Err(Untaken::Busy(client)),
        };
        let taken = state.take_rows(from);
        self.joined.release(&service.list, state);
        self.joined.look(&service.list, own);
        taken
    }
}

impl Shared {
    // Hands out the rows that it holds, where so many were handed out before.
    fn take_rows(&mut self, from: u64) -> Result<Vec<JournalRow>, Untaken>
        ensures takes { Takes self.old.keeping (entries_in self.old) from result }
        ensures entries { entries_in self.new ≡ entries_in self.old }
        ensures given { IfOk result (λ rows. (box_value self.new.ledger).given ≡ (box_value self.old.ledger).given + vec_len rows) }
        ensures refused { OnErr result (self.new ≡ self.old) }
    {
        let given = self.ledger.given();
        match self.keeping {
            Keeping::UntilTaken if given == from => Ok(self.ledger.take_rows()),
            Keeping::UntilTaken => Err(Untaken::Elsewhere(given)),
            Keeping::Whole | Keeping::Nothing => Err(Untaken::NoParts),
        }
    }
}
