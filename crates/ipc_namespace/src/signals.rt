// The interrupt of waiting calls, and who may interrupt and kill a process (kill(2), tgkill(2)).

ghost use Rattle.std.specs.Prelude.{◌≡◌, ◌+◌, ◌<◌, ◌≤◌, ◌++◌, length, vec_len, vec_capacity, Some};
ghost use Rattle.ipc_model.specs.Decision.{outcome_of, without_answer};
ghost use Rattle.ipc_call.specs.declared.replies.Answer.TheVariants.{Done};
ghost use Rattle.ipc_model.specs.Plan.{Grant, decision, in_order};
ghost use Rattle.ipc_model.specs.Decide.{decide_alive as decision_on};
ghost use Rattle.ipc_model.specs.Processes.{interrupt as interrupt_by, interrupt_thread as interrupt_of, to_signal};
ghost use Rattle.ipc_model.specs.State.{State, caller, creds_at};
ghost use Rattle.ipc_namespace.specs.Namespace.{left_alive as moved_by};

use crate::cancelling::Cancelling;
use crate::control_calls::allowed;
use crate::namespace::Namespace;
use ipc_call::{Answer, Call, Completion, Outcome, Rule};
use ipc_perm::may_interrupt;

impl Namespace {
    /// An interrupt of a process: the waiting calls of its threads end; there is room for each in the list of those that
    /// ended.
    #[tactic(auto, unfolding(ipc_model::specs::Decide::part_plan))]
    pub(super) fn interrupt(
        &mut self,
        client: u32,
        pid: u32,
        ended: &mut Vec<Completion>,
    ) -> Outcome
        requires known { client < length self.old.clients }
        requires space { vec_len ended.old + length self.old.parked ≤ vec_capacity ended.old }
        ensures outcome { outcome_of (decision_on self.old client (Call.Interrupt pid)) ≡ Some result }
        ensures state { self.new ≡ (moved_by self.old client (Call.Interrupt pid)).state }
        ensures ended { ended.new.items ≡ ended.old.items ++ (moved_by self.old client (Call.Interrupt pid)).ended }
        ensures few { vec_len ended.new + length self.new.parked ≡ vec_len ended.old + length self.old.parked }
        ensures space { vec_capacity ended.old ≤ vec_capacity ended.new }
    {
        self.may_end_waits(client, pid)?;
        self.cancel(Cancelling::Interrupted(pid), ended);
        Ok(Answer::Done)
    }

    /// Whether an interrupt of a process is granted.
    fn may_end_waits(&self, client: u32, pid: u32) -> Result<(), Rule>
        requires known { client < length self.now.clients }
        ensures { without_answer (decision (creds_at self.now client) (interrupt_by self.now (caller self.now client) pid)) ≡ Some result }
    {
        if self.processes.is_process(pid) {
            self.may_signal(client, pid)
        } else {
            Err(Rule::NoProcess)
        }
    }

    /// An interrupt of one thread, that of a client: its waiting call ends; there is room for it in the list of those that
    /// ended.
    #[tactic(auto, unfolding(ipc_model::specs::Decide::part_plan))]
    pub(super) fn interrupt_thread(
        &mut self,
        client: u32,
        target: u32,
        ended: &mut Vec<Completion>,
    ) -> Outcome
        requires known { client < length self.old.clients }
        requires space { vec_len ended.old + length self.old.parked ≤ vec_capacity ended.old }
        ensures outcome { outcome_of (decision_on self.old client (Call.InterruptThread target)) ≡ Some result }
        ensures state { self.new ≡ (moved_by self.old client (Call.InterruptThread target)).state }
        ensures ended { ended.new.items ≡ ended.old.items ++ (moved_by self.old client (Call.InterruptThread target)).ended }
        ensures few { vec_len ended.new + length self.new.parked ≡ vec_len ended.old + length self.old.parked }
        ensures space { vec_capacity ended.old ≤ vec_capacity ended.new }
    {
        self.may_interrupt_thread(client, target)?;
        self.cancel(Cancelling::ThreadInterrupted(target), ended);
        Ok(Answer::Done)
    }

    /// Whether the interrupt of one thread is granted.
    fn may_interrupt_thread(&self, client: u32, target: u32) -> Result<(), Rule>
        requires known { client < length self.now.clients }
        ensures { without_answer (decision (creds_at self.now client) (interrupt_of self.now (caller self.now client) target)) ≡ Some result }
    {
        let Some(thread) = self.processes.threads().get(target as usize) else {
            return Err(Rule::NoClient);
        };
        if thread.has_ended {
            return Err(Rule::NoProcess);
        }
        if thread.pid == self.pid_of(client) {
            return Ok(());
        }
        let creds = &self.clients[client as usize];
        allowed(may_interrupt(creds, self.clients[target as usize].euid()))
    }

    /// Whether the client may signal the process of a pid: its own, or one whose threads each have a user that it may
    /// interrupt.
    pub(super) fn may_signal(&self, client: u32, pid: u32) -> Result<(), Rule>
        requires known { client < length self.now.clients }
        ensures { (new : State) → without_answer (decision (creds_at self.now client) (in_order (to_signal self.now (caller self.now client) pid) (Grant Done new))) ≡ Some result }
    {
        if pid == self.pid_of(client) {
            return Ok(());
        }
        let creds = &self.clients[client as usize];
        let mut next = self.processes.next_with_pid(pid, 0);
        while let Some(target) = next {
            allowed(may_interrupt(creds, self.clients[target as usize].euid()))?;
            next = self.processes.next_with_pid(pid, target + 1);
        }
        Ok(())
    }
}
