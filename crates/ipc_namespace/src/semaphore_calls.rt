// The calls on semaphore sets, semget(2), semop(2) and semctl(2), in a namespace.

ghost use Rattle.std.specs.Prelude.{◌≡◌, ◌<◌, true, length, slice_get, IfOk, IfSome, OnOk, OnErr, Some};
ghost use Rattle.std.specs.List.{count_by};
ghost use Rattle.ipc_model.specs.State.{creds_at, process_at};
ghost use Rattle.ipc_model.specs.Plan.{decision};
ghost use Rattle.ipc_model.specs.Decision.{left_by, outcome_of};
ghost use Rattle.ipc_model.specs.Decide.{decide_alive as decision_on, get_waiting, waits_for};
ghost use Rattle.ipc_namespace.specs.Namespace.{is_awaited, is_on_sets};
ghost use Rattle.ipc_namespace.specs.Wanting.{takes_memory};

use crate::callers::{caller_of, process_in};
use crate::namespace::Namespace;
use ipc_call::{Answer, Call, Get, GetSet, Items, Memory, Outcome, SemOper};

/// What a waiting semop waits for, at the operation where it stops.
#[derive(Clone, Copy, Debug, PartialEq, Eq)]
pub enum Awaited {
    /// A greater value.
    Rise,
    /// The value 0.
    Zero,
}

impl Awaited {
    /// Whether the operation waits for it at the semaphore of this number.
    fn is_at(self, num: u32, oper: SemOper) -> bool
        ensures { result ≡ is_awaited self num oper }
    {
        u32::from(oper.num) == num
            && match self {
                Awaited::Rise => oper.op < 0,
                Awaited::Zero => oper.op == 0,
            }
    }
}

impl Namespace {
    /// semop: None where it is to wait, and then nothing has changed. The error comes only where an allocation fails, and
    /// then nothing has changed either.
    #[tactic(auto, unfolding(ipc_model::specs::Decide::part_plan))]
    pub(super) fn semop(
        &mut self,
        client: u32,
        id: u32,
        ops: &Items<SemOper>,
    ) -> Result<Option<Outcome>, Memory>
        requires known { client < length self.old.clients }
        ensures outcome { IfOk result (λ own. own ≡ outcome_of (decision_on self.old client (Call.SemOp id ops.now))) }
        ensures state { OnOk result (self.new ≡ left_by self.old (decision_on self.old client (Call.SemOp id ops.now))) }
        ensures parked { self.new.parked ≡ self.old.parked }
        ensures err { OnErr result (self.new ≡ self.old) }
    {
        let who = caller_of(&self.clients, self.processes.threads(), client, self.clock);
        self.sets.semop(&self.limits, &who, id, ops.as_slice())
    }

    /// How many calls wait at a semaphore for what is awaited (GETNCNT and GETZCNT of semctl(2)).
    pub(super) fn count(&mut self, client: u32, id: u32, num: u32, awaited: Awaited) -> Outcome
        requires known { client < length self.old.clients }
        ensures outcome { outcome_of (decision (creds_at self.old client) (get_waiting self.old id num (is_awaited awaited num))) ≡ Some result }
        ensures same { self.new ≡ self.old }
    {
        let who = caller_of(&self.clients, self.processes.threads(), client, self.clock);
        self.sets.with_semaphore(&who, id, num)?;
        Ok(Answer::Value(self.waiting_at(id, num, awaited)))
    }

    /// How many calls wait at a semaphore, at most 4,095.
    fn waiting_at(&mut self, id: u32, num: u32, awaited: Awaited) -> u32
        ensures count { result ≡ count_by (λ w. waits_for self.old.sems id (is_awaited awaited num) (process_at self.old w.client) w.call) self.old.parked }
        ensures same { self.new ≡ self.old }
    {
        let mut count = 0;
        for index in 0..self.parked.len() {
            if self.waits_at(index, id, num, awaited) {
                count += 1;
            }
        }
        count
    }

    /// Whether the waiting call at an index waits at the semaphore.
    fn waits_at(&mut self, index: usize, id: u32, num: u32, awaited: Awaited) -> bool
        requires { index < length self.old.parked }
        ensures awaits { IfSome (slice_get self.old.parked index) (λ w. result ≡ waits_for self.old.sems id (is_awaited awaited num) (process_at self.old w.client) w.call) }
        ensures same { self.new ≡ self.old }
    {
        let Some((client, arrival)) = self.parked.nth(index) else {
            return false;
        };
        let Call::SemOp { id: set, ops } = &arrival.call else {
            return false;
        };
        if *set != id {
            return false;
        }
        let process = process_in(self.processes.threads(), client);
        match self.sets.stopping(process, id, ops.as_slice()) {
            None => false,
            Some(oper) => awaited.is_at(num, oper),
        }
    }

    /// A call on semaphore sets that doesn't wait. The error comes only where an allocation fails, and then nothing has
    /// changed.
    #[tactic(auto, unfolding(ipc_model::specs::Decide::part_plan))]
    pub(super) fn on_sets(&mut self, client: u32, call: &Call) -> Result<Outcome, Memory>
        requires known { client < length self.old.clients }
        requires sets { is_on_sets call.now ≡ true }
        ensures outcome { IfOk result (λ outcome. outcome_of (decision_on self.old client call.now) ≡ Some outcome) }
        ensures state { OnOk result (self.new ≡ left_by self.old (decision_on self.old client call.now)) }
        ensures parked { self.new.parked ≡ self.old.parked }
        ensures err { OnErr result (self.new ≡ self.old) }
        ensures memory { OnErr result (takes_memory call.now ≡ true) }
    {
        let who = caller_of(&self.clients, self.processes.threads(), client, self.clock);
        match call {
            Call::SemGet { key, nsems, flags } => {
                let get = Get {
                    key: *key,
                    flags: *flags,
                };
                let asked = GetSet { get, nsems: *nsems };
                self.sets.semget(&self.limits, &who, asked)
            }
            Call::GetVal { id, num } => Ok(self.sets.getval(&who, *id, *num)),
            Call::GetPid { id, num } => Ok(self.sets.getpid(&who, *id, *num)),
            Call::GetAll { id } => self.sets.getall(&who, *id),
            Call::SetVal { id, num, value } => Ok(self.sets.setval(&who, *id, *num, *value)),
            Call::SetAll { id, values } => Ok(self.sets.setall(&who, *id, values.as_slice())),
            _ => unreachable!(),
        }
    }
}
