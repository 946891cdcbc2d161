// The calls on shared memory segments, shmget(2), shmat and shmdt (shmop(2)), reads and writes, in a namespace.

ghost use Rattle.std.specs.Prelude.{◌≡◌, ◌<◌, true, length, IfOk, OnOk, OnErr, Some};
ghost use Rattle.ipc_model.specs.Decision.{left_by, outcome_of};
ghost use Rattle.ipc_model.specs.Decide.{decide_alive as decision_on};
ghost use Rattle.ipc_namespace.specs.Namespace.{is_on_segments};
ghost use Rattle.ipc_namespace.specs.Wanting.{takes_memory};

use crate::callers::caller_of;
use crate::namespace::Namespace;
use ipc_call::{Call, Get, GetSegment, Memory, Outcome};

impl Namespace {
    /// A call on segments alone, of which none waits. The error comes only where an allocation fails, and then nothing
    /// has changed.
    #[tactic(auto, unfolding(ipc_model::specs::Decide::part_plan))]
    pub(super) fn on_segments(&mut self, client: u32, call: &Call) -> Result<Outcome, Memory>
        requires known { client < length self.old.clients }
        requires segments { is_on_segments call.now ≡ true }
        ensures outcome { IfOk result (λ outcome. outcome_of (decision_on self.old client call.now) ≡ Some outcome) }
        ensures state { OnOk result (self.new ≡ left_by self.old (decision_on self.old client call.now)) }
        ensures parked { self.new.parked ≡ self.old.parked }
        ensures err { OnErr result (self.new ≡ self.old) }
        ensures memory { OnErr result (takes_memory call.now ≡ true) }
    {
        let who = caller_of(&self.clients, self.processes.threads(), client, self.clock);
        match call {
            Call::ShmGet { key, size, flags } => {
                let get = Get {
                    key: *key,
                    flags: *flags,
                };
                let asked = GetSegment { get, size: *size };
                self.segments.shmget(&self.limits, &who, asked)
            }
            Call::ShmAt { id, flags } => self.segments.shmat(&who, *id, *flags),
            Call::ShmDt { att } => Ok(self.segments.shmdt(&who, *att)),
            Call::ShmRead { att, offset, len } => self.segments.shmread(&who, *att, *offset, *len),
            Call::ShmWrite { att, offset, bytes } => {
                self.segments
                    .shmwrite(&who, *att, *offset, bytes.as_slice())
            }
            _ => unreachable!(),
        }
    }
}
