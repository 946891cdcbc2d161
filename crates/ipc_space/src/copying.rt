// A copy of a namespace, and what a call would be answered.

ghost use Rattle.std.specs.Prelude.{◌≡◌, ◌+◌, ◌<◌, false, length, IfOk};
ghost use Rattle.ipc_model.specs.State.{is_waiting as waits};
ghost use Rattle.ipc_history.specs.History.{next_step, run};
ghost use Rattle.ipc_space.specs.Spaces.{own_reply};

use crate::replaying::{Replayed, replay};
use crate::space::Space;
use ipc_call::{Call, Memory, Reply};
use ipc_creds::copies;

impl Space {
    /// A namespace with the same history, to try calls on: they leave this one as it is. It is made by a replay of the
    /// journal, so it takes as long as all events took. Memory (ENOMEM) comes where a growth was refused.
    pub fn copy(&self) -> Result<Space, Memory>
        ensures { IfOk result (λ copy. copy ≡ self.now) }
    {
        let clients = copies(self.ledger.alloc(), self.ledger.opening())?;
        match replay(self.ledger.limits(), clients, self.ledger.rows())? {
            Replayed::Same(copy) => Ok(copy),
            Replayed::Differs(_) => unreachable!(),
        }
    }

    /// What a call would be answered if it were made now, without making it. None where it would wait. The client is one
    /// of the namespace, and has no call that waits. It takes as long as a copy. Memory (ENOMEM) comes where a growth was
    /// refused.
    pub fn would(&self, client: u32, now: u64, call: Call) -> Result<Option<Reply>, Memory>
        requires known { client < length self.now.clients }
        requires free { waits (run self.now) client ≡ false }
        ensures { IfOk result (λ reply.
            reply ≡ own_reply (length self.now.events + 1) (next_step self.now (record { client = client; now = now; call = call })).own) }
    {
        let mut copy = self.copy()?;
        let effects = copy.apply(client, now, call)?;
        Ok(effects.own)
    }
}
