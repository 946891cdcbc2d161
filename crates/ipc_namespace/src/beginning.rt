// How processes and threads begin: begin, fork (fork(2)), clone (clone(2)), and name, by which a process takes another pid.

ghost use Rattle.std.specs.Prelude.{◌≡◌, ◌<◌, ℕ, true, false, length, Some, None, IfOk, is_some, OnOk, OnErr};
ghost use Rattle.ipc_model.specs.Decision.{left_by, outcome_of};
ghost use Rattle.ipc_model.specs.Decide.{decide_alive as decision_on};
ghost use Rattle.ipc_model.specs.Processes.{free_client};
ghost use Rattle.ipc_model.specs.State.{has_exited};
ghost use Rattle.ipc_namespace.specs.Wanting.{have_all_come};
ghost use Rattle.shm_seg.specs.Attachments.{attachment_at};

use crate::becoming::creds_of;
use crate::callers::caller_of;
use crate::namespace::Namespace;
use ipc_call::{Answer, Call, Identity, Memory, Outcome, Rule};
use ipc_creds::GROUPS_MAX;

impl Namespace {
    /// begin: the client, whose thread has ended, is the only thread of a new process. It takes no memory: the error comes only
    /// where 2^64 processes have come, and then nothing has changed.
    #[tactic(auto, unfolding(ipc_model::specs::Decide::part_plan))]
    pub(super) fn begin(
        &mut self,
        client: u32,
        pid: u32,
        creds: &Identity,
    ) -> Result<Outcome, Memory>
        requires known { client < length self.old.clients }
        ensures outcome { IfOk result (λ outcome. outcome_of (decision_on self.old client (Call.Begin pid creds.now)) ≡ Some outcome) }
        ensures state { OnOk result (self.new ≡ left_by self.old (decision_on self.old client (Call.Begin pid creds.now))) }
        ensures parked { self.new.parked ≡ self.old.parked }
        ensures err { OnErr result (self.new ≡ self.old) }
        ensures last { OnErr result (have_all_come self.old ≡ true) }
    {
        if !self.is_free(client) {
            return Ok(Err(Rule::ClientInUse));
        }
        if pid == 0 {
            return Ok(Err(Rule::BadPid));
        }
        if creds.groups.len() > GROUPS_MAX {
            return Ok(Err(Rule::TooManyGroups));
        }
        if self.processes.is_process(pid) {
            return Ok(Err(Rule::PidInUse));
        }
        self.processes.next()?;
        self.clients[client as usize] = creds_of(creds);
        self.processes.begin(client, pid);
        Ok(Ok(Answer::Done))
    }

    /// fork: the child, a client whose thread has ended, is the only thread of a new process with the caller's credentials and
    /// with copies of its attachments. The error comes where an allocation fails, or 2^64 processes have come, and then nothing
    /// has changed.
    #[tactic(auto, unfolding(ipc_model::specs::Decide::part_plan))]
    pub(super) fn fork(&mut self, client: u32, child: u32, pid: u32) -> Result<Outcome, Memory>
        requires known { client < length self.old.clients }
        requires fresh { (number : ℕ) → attachment_at self.old.shared.attached self.old.next number ≡ None }
        ensures outcome { IfOk result (λ outcome. outcome_of (decision_on self.old client (Call.Fork child pid)) ≡ Some outcome) }
        ensures state { OnOk result (self.new ≡ left_by self.old (decision_on self.old client (Call.Fork child pid))) }
        ensures parked { self.new.parked ≡ self.old.parked }
        ensures err { OnErr result (self.new ≡ self.old) }
    {
        if pid == 0 {
            return Ok(Err(Rule::BadPid));
        }
        if child as usize >= self.clients.len() {
            return Ok(Err(Rule::NoClient));
        }
        if !self.is_free(child) {
            return Ok(Err(Rule::ClientInUse));
        }
        if self.processes.is_process(pid) {
            return Ok(Err(Rule::PidInUse));
        }
        let process = self.processes.next()?;
        let creds = self.clients[client as usize].copy();
        let who = caller_of(&self.clients, self.processes.threads(), client, self.clock);
        self.segments.fork(&who, process)?;
        self.clients[child as usize] = creds;
        self.processes.begin(child, pid);
        Ok(Ok(Answer::Done))
    }

    /// clone: the child, a client whose thread has ended, is one more thread of the caller's process with its credentials. It
    /// takes no memory.
    #[tactic(auto, unfolding(ipc_model::specs::Decide::part_plan))]
    pub(super) fn clone(&mut self, client: u32, child: u32) -> Outcome
        requires known { client < length self.old.clients }
        requires alive { has_exited self.old client ≡ false }
        ensures outcome { outcome_of (decision_on self.old client (Call.Clone child)) ≡ Some result }
        ensures state { self.new ≡ left_by self.old (decision_on self.old client (Call.Clone child)) }
        ensures parked { self.new.parked ≡ self.old.parked }
    {
        if child as usize >= self.clients.len() {
            return Err(Rule::NoClient);
        }
        if !self.is_free(child) {
            return Err(Rule::ClientInUse);
        }
        self.clients[child as usize] = self.clients[client as usize].copy();
        self.processes.clone(client, child);
        Ok(Answer::Done)
    }

    /// name: the client's process takes another pid. It takes no memory.
    #[tactic(auto, unfolding(ipc_model::specs::Decide::part_plan))]
    pub(super) fn name(&mut self, client: u32, pid: u32) -> Outcome
        requires known { client < length self.old.clients }
        requires alive { has_exited self.old client ≡ false }
        ensures outcome { outcome_of (decision_on self.old client (Call.Name pid)) ≡ Some result }
        ensures state { self.new ≡ left_by self.old (decision_on self.old client (Call.Name pid)) }
        ensures parked { self.new.parked ≡ self.old.parked }
    {
        if pid == 0 {
            return Err(Rule::BadPid);
        }
        if self.processes.is_of_another(self.process_of(client), pid) {
            return Err(Rule::PidInUse);
        }
        self.processes.rename(client, pid);
        Ok(Answer::Done)
    }

    /// Whether there is a client of this number, and its thread has ended.
    fn is_free(&self, client: u32) -> bool
        ensures { result ≡ is_some (free_client self.now client) }
    {
        match self.processes.threads().get(client as usize) {
            None => false,
            Some(thread) => thread.has_ended,
        }
    }
}
