// The waiting calls that the end of a process makes ready where it adds something to several sets.

ghost use Rattle.std.specs.Prelude.{◌≡◌, ◌+◌, ◌<◌, ◌≤◌, ◌||◌, ◌++◌, ◌∷◌, [], ℕ, true, false, length, option_map, vec_len, vec_capacity, IfNone, IfOk, IfSome, IsSome, None, OnErr, OnOk};
ghost use Rattle.std.specs.List.{AllByRecursion, list_any};
ghost use Rattle.ipc_call.specs.declared.calls.Kind.TheVariants as kinds;
ghost use Rattle.shm_seg.specs.Attachments.{attachment_at};
ghost use Rattle.ipc_model.specs.Cancelled.{waits_on};
ghost use Rattle.ipc_model.specs.State.{is_waiting as waits, waiting_of};
ghost use Rattle.ipc_model.specs.Step.{Moved as MovedTo, after, end_waiting, enter as enters, expire, first_ready as first_that_is_ready, is_ready, settled};
ghost use Rattle.ipc_parked.specs.Parked.{AreApart, waiting};
ghost use Rattle.ipc_namespace.specs.Namespace.{AreQuietBut, earliest_of, is_found};
ghost use Rattle.ipc_namespace.specs.Wanting.{may_want_memory};
ghost use Rattle.ipc_namespace.specs.Touching.{CoversOwed, IsOwedTo, ending as process_ending, first_on, is_listed};

use crate::callers::caller_of;
use crate::namespace::{Namespace, is_granted};
use crate::owed::OwedSets;
use ipc_call::{Call, Completion, Kind, Memory, Outcome};
use ipc_parked::{Parked, Touched};

impl Namespace {
    /// The same as `enter`, of a call by which a process may end that adds something to several sets.
    #[cold]
    #[inline(never)]
    pub(super) fn enter_several(
        &mut self,
        client: u32,
        place: u64,
        call: &Call,
        ended: &mut Vec<Completion>,
    ) -> Result<Option<Outcome>, Memory>
        requires known { client < length self.old.clients }
        requires fresh { (number : ℕ) → attachment_at self.old.shared.attached self.old.next number ≡ None }
        requires free { waits self.old client ≡ false }
        requires quiet { first_that_is_ready self.old ≡ None }
        requires empty { ended.old.items ≡ [] }
        requires space { length self.old.parked < vec_capacity ended.old }
        requires ends { IsSome (process_ending self.old client call.now) }
        ensures ok { IfOk result (λ own. after (expire self.old).ended (enters (expire self.old).state client call.now) ≡ record { state = self.new; own = own; ended = ended.new.items }) }
        ensures few { OnOk result (vec_len ended.new ≤ length self.old.parked) }
        ensures space { vec_capacity ended.old ≤ vec_capacity ended.new }
        ensures err { OnErr result (self.new ≡ self.old) }
        ensures memory { OnErr result (may_want_memory self.old call.now ≡ true) }
        ensures none { OnErr result (ended.new.items ≡ []) }
    {
        let process = self.ending(client, call).unwrap();
        let mut owed = OwedSets::none();
        self.list_owed(process, &mut owed);
        let own = self.carry_out(client, place, call, ended)?;
        if is_granted(&own) {
            self.settle_several(owed.ids(), ended);
        }
        Ok(own)
    }

    /// The process that may end by the call.
    fn ending(&self, client: u32, call: &Call) -> Option<u64>
        ensures { result ≡ process_ending self.now client call.now }
    {
        match call {
            Call::Exit => Some(self.process_of(client)),
            Call::Kill { pid } => {
                let target = self.with_pid(*pid)?;
                Some(self.process_of(target))
            }
            _ => None,
        }
    }

    /// Lists the sets to which the end of a process adds something and on which calls wait. It takes no memory.
    fn list_owed(&self, process: u64, owed: &mut OwedSets)
        requires { owed.old ≡ [] }
        ensures covers { CoversOwed self.now process (is_listed owed.new) }
        ensures only { AllByRecursion (λ id. IsOwedTo self.now process id) owed.new }
    {
        let mut next = self.sets.next_owed(process, 0);
        while let Some(id) = next {
            if is_awaited(&self.parked, id) {
                owed.push(id);
            }
            next = self.sets.next_owed(process, u64::from(id) + 1);
        }
    }

    /// Ends the waiting calls on these sets that can proceed, the earliest first, until none can: at first no other can, and a
    /// call that ends touches no others. There is room for each in the list of those that ended.
    fn settle_several(&mut self, owed: &[u32], ended: &mut Vec<Completion>)
        requires quiet { AreQuietBut (is_listed owed.now) self.old }
        requires room { vec_len ended.old + length self.old.parked ≤ vec_capacity ended.old }
        ensures state { self.new ≡ (settled self.old).state }
        ensures ended { ended.new.items ≡ ended.old.items ++ (settled self.old).ended }
        ensures few { vec_len ended.new ≤ vec_len ended.old + length self.old.parked }
        ensures space { vec_capacity ended.old ≤ vec_capacity ended.new }
    {
        while let Some(completion) = self.complete_listed(owed) {
            ended.push(completion).unwrap();
        }
    }

    /// Ends the earliest waiting call that can proceed. None where none can. Only those on these sets are tried.
    fn complete_listed(&mut self, owed: &[u32]) -> Option<Completion>
        requires quiet { AreQuietBut (is_listed owed.now) self.old }
        ensures first { option_map (end_waiting self.old) (first_that_is_ready self.old) ≡ option_map {U = MovedTo} (λ ended. record { state = self.new; ended = ended ∷ [] }) result }
        ensures none { IfNone result (self.new ≡ self.old) }
        ensures shorter { IfSome result (λ _. length self.new.parked + 1 ≡ length self.old.parked) }
    {
        let client = self.first_listed(owed)?;
        self.try_waiting(client)
    }

    /// The client of the earliest waiting call on these sets that can proceed: of those that are the earliest on a set, the
    /// earliest. It leaves the namespace as it is.
    fn first_listed(&mut self, owed: &[u32]) -> Option<u32>
        ensures first { result ≡ first_on self.old (is_listed owed.now) }
        ensures apart { IfSome result (λ _. AreApart self.old.parked) }
        ensures same { self.new ≡ self.old }
    {
        let mut first = None;
        for id in owed {
            first = self.earlier_on_set(first, *id);
        }
        first
    }

    /// Whose call came first and can proceed: the client's that was found before, or that of the earliest on this set. It leaves
    /// the namespace as it is.
    fn earlier_on_set(&mut self, first: Option<u32>, id: u32) -> Option<u32>
        requires { IfSome first (λ client. waits self.old client ≡ true) }
        ensures first { result ≡ earliest_of self.old (λ c. is_found first c || is_found (first_on self.old (λ w. waits_on kinds.Sems id w.call)) c) }
        ensures apart { AreApart self.old.parked }
        ensures same { self.new ≡ self.old }
    {
        match self.first_on_set(id) {
            None => first,
            Some(client) => self.earlier(first, client),
        }
    }

    /// The client of the earliest waiting call on the set that can proceed. It leaves the namespace as it is.
    fn first_on_set(&mut self, id: u32) -> Option<u32>
        ensures first { result ≡ first_on self.old (λ w. waits_on kinds.Sems id w.call) }
        ensures apart { AreApart self.old.parked }
        ensures same { self.new ≡ self.old }
    {
        let touched = Touched::Object {
            kind: Kind::Sems,
            id,
        };
        for index in 0..self.parked.len() {
            let client = self.parked.nth_touched(touched, index)?;
            if self.can_operate(client) {
                return Some(client);
            }
        }
        None
    }

    /// Whether the client's waiting call can proceed, where it waits on a set. It leaves the namespace as it is.
    #[tactic(auto, unfolding(ipc_model::specs::Decide::part_plan))]
    fn can_operate(&mut self, client: u32) -> bool
        requires { waits self.old client ≡ true }
        ensures ready { IfSome (waiting_of self.old client) (λ w. (id : ℕ) → waits_on kinds.Sems id w.call ≡ true → result ≡ is_ready self.old w) }
        ensures same { self.new ≡ self.old }
    {
        let call = self.parked.call_of(client);
        let who = caller_of(&self.clients, self.processes.threads(), client, self.clock);
        let Call::SemOp { id, ops } = call else {
            return false;
        };
        self.sets
            .decide_semop(&self.limits, &who, *id, ops.as_slice())
            .is_some()
    }
}

/// Whether a call waits on the set.
fn is_awaited(parked: &Parked, id: u32) -> bool
    ensures { result ≡ list_any (λ w. waits_on kinds.Sems id w.call) (waiting parked.now) }
{
    let touched = Touched::Object {
        kind: Kind::Sems,
        id,
    };
    parked.nth_touched(touched, 0).is_some()
}
