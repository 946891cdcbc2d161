// How threads and processes end: exit (_exit(2)), kill (kill(2) with SIGKILL) and exec (execve(2)).

ghost use Rattle.std.specs.Prelude.{◌≡◌, ◌+◌, ◌<◌, ◌≤◌, ◌++◌, false, length, vec_len, vec_capacity, Some};
ghost use Rattle.ipc_model.specs.State.{Caller as CallerOf, caller, creds_at, has_exited, is_running as running, is_waiting as waits, process_at};
ghost use Rattle.ipc_model.specs.Decision.{left_by, outcome_of};
ghost use Rattle.ipc_model.specs.Decide.{decide_alive as decision_on};
ghost use Rattle.ipc_model.specs.Processes.{as_process, process_ended};
ghost use Rattle.ipc_namespace.specs.Namespace.{left_alive as moved_by};

use crate::callers::{caller_of, thread_of};
use crate::cancelling::Cancelling;
use crate::namespace::Namespace;
use ipc_call::{Answer, Call, Completion, Outcome, Rule, Thread};
use object_calls::Caller;

impl Namespace {
    /// exit: the client's thread ends, and with the last one its process: what its semops did with SEM_UNDO is undone, and what
    /// it has attached is detached. It takes no memory.
    #[tactic(auto, unfolding(ipc_model::specs::Decide::part_plan))]
    pub(super) fn exit(&mut self, client: u32) -> Outcome
        requires known { client < length self.old.clients }
        requires free { waits self.old client ≡ false }
        requires alive { has_exited self.old client ≡ false }
        ensures outcome { outcome_of (decision_on self.old client Call.Exit) ≡ Some result }
        ensures state { self.new ≡ left_by self.old (decision_on self.old client Call.Exit) }
        ensures parked { self.new.parked ≡ self.old.parked }
    {
        let runs = self.processes.end(client);
        if !runs {
            let thread = thread_of(self.processes.threads(), client);
            self.end_process(client, thread);
        }
        Ok(Answer::Done)
    }

    /// kill: all threads of the process of a pid end, and so the process. Their waiting calls end first; there is room for
    /// each in the list of those that ended.
    #[tactic(auto, unfolding(ipc_model::specs::Decide::part_plan))]
    pub(super) fn kill(&mut self, client: u32, pid: u32, ended: &mut Vec<Completion>) -> Outcome
        requires known { client < length self.old.clients }
        requires space { vec_len ended.old + length self.old.parked ≤ vec_capacity ended.old }
        ensures outcome { outcome_of (decision_on self.old client (Call.Kill pid)) ≡ Some result }
        ensures state { self.new ≡ (moved_by self.old client (Call.Kill pid)).state }
        ensures ended { ended.new.items ≡ ended.old.items ++ (moved_by self.old client (Call.Kill pid)).ended }
        ensures few { vec_len ended.new + length self.new.parked ≡ vec_len ended.old + length self.old.parked }
        ensures space { vec_capacity ended.old ≤ vec_capacity ended.new }
    {
        let Some(target) = self.processes.with_pid(pid) else {
            return Err(Rule::NoProcess);
        };
        self.may_signal(client, pid)?;
        self.cancel(Cancelling::Ended(target), ended);
        self.processes.end_all(target);
        let thread = thread_of(self.processes.threads(), target);
        self.end_process(client, thread);
        Ok(Answer::Done)
    }

    /// exec: the other threads of the client's process end, and what it has attached is detached; the saved user and group
    /// become the effective ones. The waiting calls of those threads end first; there is room for each in the list of those
    /// that ended.
    #[tactic(auto, unfolding(ipc_model::specs::Decide::part_plan))]
    pub(super) fn exec(&mut self, client: u32, ended: &mut Vec<Completion>) -> Outcome
        requires known { client < length self.old.clients }
        requires free { waits self.old client ≡ false }
        requires alive { has_exited self.old client ≡ false }
        requires space { vec_len ended.old + length self.old.parked ≤ vec_capacity ended.old }
        ensures outcome { outcome_of (decision_on self.old client Call.Exec) ≡ Some result }
        ensures state { self.new ≡ (moved_by self.old client Call.Exec).state }
        ensures ended { ended.new.items ≡ ended.old.items ++ (moved_by self.old client Call.Exec).ended }
        ensures few { vec_len ended.new + length self.new.parked ≡ vec_len ended.old + length self.old.parked }
        ensures space { vec_capacity ended.old ≤ vec_capacity ended.new }
    {
        self.cancel(Cancelling::Ended(client), ended);
        let who = caller_of(&self.clients, self.processes.threads(), client, self.clock);
        self.segments.exit(&who);
        self.processes.end_others(client);
        self.clients[client as usize].execute();
        Ok(Answer::Done)
    }

    /// The process of a thread ends, of which no other runs, by the call of a client.
    fn end_process(&mut self, client: u32, thread: Thread)
        requires known { client < length self.old.clients }
        requires last { running self.old thread.process ≡ false }
        ensures { self.new ≡ process_ended self.old (as_process (caller self.old client) thread) }
    {
        let who = Caller::new(
            client,
            thread.process,
            thread.pid,
            &self.clients[client as usize],
            self.clock,
        );
        self.sets.exit(&who);
        self.segments.exit(&who);
    }
}
