// The controls of objects of any kind, IPC_STAT, IPC_SET and IPC_RMID (msgctl(2), semctl(2), shmctl(2)).

ghost use Rattle.std.specs.Prelude.{◌≡◌, ℕ, ◌+◌, ◌<◌, ◌≤◌, ◌++◌, [], ⊤, length, vec_len, vec_capacity, IfOk, Some, IsSome};
ghost use Rattle.ipc_model.specs.State.{creds_at};
ghost use Rattle.ipc_model.specs.Decision.{left_by, outcome_of};
ghost use Rattle.ipc_model.specs.Plan.{decision};
ghost use Rattle.ipc_model.specs.Decide.{decide_alive as decision_on};
ghost use Rattle.ipc_model.specs.Controls.{is_within as is_within_limit, perm_of as perm_in, remove_object, set_object, with_set};
ghost use Rattle.ipc_namespace.specs.Namespace.{allowed_by, left_alive as moved_by};
ghost use Rattle.ipc_model.specs.Decision.{without_answer};

use crate::cancelling::Cancelling;
use crate::namespace::Namespace;
use bitflags::Flags;
use ipc_call::{Answer, Boxed, Call, Completion, Kind, Memory, Outcome, Rule, Settings, Status};
use ipc_creds::{Caps, Creds};
use ipc_perm::{Perm, TO_READ, Verdict, decide, may_control};

/// Nothing, or the rule that denies.
pub(super) fn allowed(verdict: Verdict) -> Result<(), Rule>
    ensures { result ≡ allowed_by verdict }
{
    match verdict {
        Verdict::Allowed(_) => Ok(()),
        Verdict::Denied(rule) => Err(rule),
    }
}

impl Namespace {
    /// IPC_STAT. The error comes only where an allocation fails.
    #[tactic(auto, unfolding(ipc_model::specs::Decide::part_plan))]
    pub(super) fn stat(&self, client: u32, kind: Kind, id: u32) -> Result<Outcome, Memory>
        requires known { client < length self.now.clients }
        ensures outcome { IfOk result (λ outcome. outcome_of (decision_on self.now client (Call.IpcStat kind id)) ≡ Some outcome) }
        ensures same { left_by self.now (decision_on self.now client (Call.IpcStat kind id)) ≡ self.now }
    {
        let Some((perm, status)) = self.status_of(kind, id) else {
            return Ok(Err(Rule::BadId));
        };
        if let Verdict::Denied(rule) = decide(&self.clients[client as usize], &perm, TO_READ) {
            return Ok(Err(rule));
        }
        let status = Boxed::new(*self.clients.allocator(), status)?;
        Ok(Ok(Answer::Status(status)))
    }

    /// IPC_SET. The waiting calls end that it takes the right from; there is room for each in the list of those that
    /// ended.
    #[tactic(auto, unfolding(ipc_model::specs::Decide::part_plan))]
    pub(super) fn set(
        &mut self,
        client: u32,
        kind: Kind,
        id: u32,
        new: Settings,
        ended: &mut Vec<Completion>,
    ) -> Outcome
        requires known { client < length self.old.clients }
        requires space { vec_len ended.old + length self.old.parked ≤ vec_capacity ended.old }
        ensures outcome { outcome_of (decision_on self.old client (Call.IpcSet kind id new.uid new.gid new.mode new.qbytes)) ≡ Some result }
        ensures state { self.new ≡ (moved_by self.old client (Call.IpcSet kind id new.uid new.gid new.mode new.qbytes)).state }
        ensures ended { ended.new.items ≡ ended.old.items ++ (moved_by self.old client (Call.IpcSet kind id new.uid new.gid new.mode new.qbytes)).ended }
        ensures few { vec_len ended.new + length self.new.parked ≡ vec_len ended.old + length self.old.parked }
        ensures space { vec_capacity ended.old ≤ vec_capacity ended.new }
    {
        self.may_set(&self.clients[client as usize], kind, id, new)?;
        self.put_settings(kind, id, new);
        self.cancel(Cancelling::Denied(kind, id), ended);
        Ok(Answer::Done)
    }

    /// IPC_SET, which was decided.
    fn put_settings(&mut self, kind: Kind, id: u32, new: Settings)
        requires { IsSome (perm_in self.old kind id) }
        ensures { self.new ≡ with_set self.old kind id new }
    {
        match kind {
            Kind::Queue => self.queues.set(id, new, self.clock),
            Kind::Sems => self.sets.set(id, new, self.clock),
            Kind::Segment => self.segments.set(id, new, self.clock),
        }
    }

    /// Whether IPC_SET is granted. Whether `qbytes` is given is asked before the identifier is looked up.
    fn may_set(&self, creds: &Creds, kind: Kind, id: u32, new: Settings) -> Result<(), Rule>
        ensures { without_answer (decision creds.now (set_object self.now kind id new)) ≡ Some result }
    {
        if kind != Kind::Queue && new.qbytes.is_some() {
            return Err(Rule::BadArgument);
        }
        let Some(perm) = self.perm_of(kind, id) else {
            return Err(Rule::BadId);
        };
        allowed(may_control(creds, &perm))?;
        if self.is_within(new.qbytes) || creds.caps().contains(Caps::SYS_RESOURCE) {
            Ok(())
        } else {
            Err(Rule::NeedsResource)
        }
    }

    /// Whether a msg_qbytes that is asked for is at most MSGMNB.
    fn is_within(&self, qbytes: Option<u64>) -> bool
        ensures { result ≡ is_within_limit self.now qbytes }
    {
        match qbytes {
            None => true,
            Some(qbytes) => qbytes <= u64::from(self.limits.msg_mnb),
        }
    }

    /// IPC_RMID: the object leaves, or is marked where it is a segment that is attached, and its key is free. The waiting
    /// calls at it end; there is room for each in the list of those that ended.
    #[tactic(auto, unfolding(ipc_model::specs::Decide::part_plan))]
    pub(super) fn remove(
        &mut self,
        client: u32,
        kind: Kind,
        id: u32,
        ended: &mut Vec<Completion>,
    ) -> Outcome
        requires known { client < length self.old.clients }
        requires space { vec_len ended.old + length self.old.parked ≤ vec_capacity ended.old }
        ensures outcome { outcome_of (decision_on self.old client (Call.IpcRmid kind id)) ≡ Some result }
        ensures state { self.new ≡ (moved_by self.old client (Call.IpcRmid kind id)).state }
        ensures ended { ended.new.items ≡ ended.old.items ++ (moved_by self.old client (Call.IpcRmid kind id)).ended }
        ensures few { vec_len ended.new + length self.new.parked ≡ vec_len ended.old + length self.old.parked }
        ensures space { vec_capacity ended.old ≤ vec_capacity ended.new }
    {
        self.may_remove(&self.clients[client as usize], kind, id)?;
        self.cancel(Cancelling::Removed(kind, id), ended); // what waits gives its places back first
        match kind {
            Kind::Queue => self.queues.remove(id),
            Kind::Sems => self.sets.remove(id),
            Kind::Segment => self.segments.remove(id),
        }
        Ok(Answer::Done)
    }

    /// Whether IPC_RMID is granted.
    fn may_remove(&self, creds: &Creds, kind: Kind, id: u32) -> Result<(), Rule>
        ensures { without_answer (decision creds.now (remove_object self.now kind id)) ≡ Some result }
    {
        let Some(perm) = self.perm_of(kind, id) else {
            return Err(Rule::BadId);
        };
        allowed(may_control(creds, &perm))
    }
}
