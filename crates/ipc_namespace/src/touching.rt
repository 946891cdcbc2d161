// Where the calls wait that the grant of a call may make ready.

ghost use Rattle.std.specs.Prelude.{IfNone, IfSome, IsSome};
ghost use Rattle.std.specs.List.{find};
ghost use Rattle.ipc_model.specs.State.{has_pid};
ghost use Rattle.ipc_parked.specs.Touched.{is_touched};
ghost use Rattle.ipc_namespace.specs.Touching.{CoversKilled, CoversOwed, CoversWaiting, ending};

use crate::namespace::Namespace;
use ipc_call::{Call, Kind};
use ipc_parked::Touched;

impl Namespace {
    /// Where the calls wait that the grant of the client's call may make ready. None where they wait on several sets, to which
    /// the end of a process adds something.
    #[inline(always)]
    pub(super) fn touched_by(&self, client: u32, call: &Call) -> Option<Touched>
        ensures covers { IfSome result (λ touched. CoversWaiting self.now client call.now (is_touched touched)) }
        ensures several { IfNone result (IsSome (ending self.now client call.now)) }
    {
        if self.parked.len() == 0 {
            return Some(Touched::Nothing);
        }
        match call {
            Call::Exit => self.owed_by(self.process_of(client)),
            Call::Kill { pid } => self.owed_by_pid(*pid),
            _ => Touched::by(call),
        }
    }

    /// The same of the end of the process of a pid.
    fn owed_by_pid(&self, pid: u32) -> Option<Touched>
        ensures covers { IfSome result (λ touched. CoversKilled self.now pid (is_touched touched)) }
        ensures several { IfNone result (IsSome (find (has_pid pid) self.now.threads)) }
    {
        match self.processes.with_pid(pid) {
            None => Some(Touched::Nothing),
            Some(client) => self.owed_by(self.process_of(client)),
        }
    }

    /// The same of the end of a process: where it owes something to one set on which calls may wait they wait on that, and
    /// None where it does so to more.
    fn owed_by(&self, process: u64) -> Option<Touched>
        ensures { IfSome result (λ touched. CoversOwed self.now process (is_touched touched)) }
    {
        let mut touched = Touched::Nothing;
        let mut next = self.sets.next_owed(process, 0);
        while let Some(id) = next {
            let set = Touched::Object {
                kind: Kind::Sems,
                id,
            };
            if self.parked.may_be_touched(set) {
                match touched {
                    Touched::Nothing => touched = set,
                    Touched::Object { .. } => return None,
                }
            }
            next = self.sets.next_owed(process, u64::from(id) + 1);
        }
        Some(touched)
    }
}
