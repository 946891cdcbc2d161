// The waiting calls that a granted call cancels, whether they could proceed or not.

ghost use Rattle.std.specs.Prelude.{
  ◌≡◌,
  ℕ,
  ◌+◌,
  ◌<◌,
  ◌≤◌,
  ◌++◌,
  ◌==◌,
  ◌||◌,
  true,
  false,
  if◌then◌else◌,
  length,
  vec_len,
  vec_capacity,
  IfNone,
  IfSome,
  is_some,
  option_map,
  option_and_then,
  unwrap_or,
  Some,
  None,
  [],
  ◌∷◌,
};
ghost use Rattle.ipc_perm.specs.Access.{Permission};
ghost use Rattle.std.specs.List.{find};
ghost use Rattle.ipc_model.specs.State.{creds_at, is_waiting as waits, waiting_of};
ghost use Rattle.ipc_model.specs.Decide.{needs};
ghost use Rattle.ipc_model.specs.Cancelled.{first_denial, waits_on as call_waits_on};
ghost use Rattle.ipc_namespace.specs.Namespace.{ended_as, cancelled_as, earliest_of, is_found, is_named, kept_by, lives_in, stands};
ghost use Rattle.ipc_parked.specs.Parked.{AreApart};

use crate::namespace::Namespace;
use ipc_call::{Call, Completion, Kind, Rule};
use ipc_parked::waits_on;
use ipc_perm::{Perm, TO_ALTER, TO_READ, Verdict, Want, decide};
use sem_calls::wanted_by;

/// Why a granted call cancels waiting ones.
#[derive(Clone, Copy, Debug)]
pub enum Cancelling {
    /// They wait on this object, and IPC_SET took their right.
    Denied(Kind, u32),
    /// They wait on this object, and it is removed.
    Removed(Kind, u32),
    /// Their client is a thread of the process of this pid, which is interrupted.
    Interrupted(u32),
    /// They are of this client, whose thread is interrupted.
    ThreadInterrupted(u32),
    /// Their client is a thread of the process of this client, and ends.
    Ended(u32),
}

impl Namespace {
    /// Ends the waiting calls that a granted call cancels, the earliest first. There is room for each in the list
    /// of those that ended.
    pub(super) fn cancel(&mut self, cancelling: Cancelling, ended: &mut Vec<Completion>)
        requires lives { lives_in self.old cancelling ≡ true }
        requires room { vec_len ended.old + length self.old.parked ≤ vec_capacity ended.old }
        ensures state { self.new ≡ record self.old { parked = kept_by (cancelled_as self.old cancelling) self.old.parked } }
        ensures ended { ended.new.items ≡ ended.old.items ++ ended_as (cancelled_as self.old cancelling) self.old.parked }
        ensures few { vec_len ended.new + length self.new.parked ≡ vec_len ended.old + length self.old.parked }
        ensures room { vec_capacity ended.old ≤ vec_capacity ended.new }
    {
        while let Some((client, rule)) = self.first_cancelled(cancelling) {
            let ending = self.end_as(client, Err(rule));
            ended.push(ending).unwrap();
        }
    }

    /// The client of the earliest waiting call that ends, and the rule.
    fn first_cancelled(&self, cancelling: Cancelling) -> Option<(u32, Rule)>
        requires lives { lives_in self.now cancelling ≡ true }
        ensures first { find (λ w. is_some (cancelled_as self.now cancelling w)) self.now.parked ≡ option_and_then (λ x. waiting_of self.now x.0) result }
        ensures rule { IfSome result (λ x. IfSome (waiting_of self.now x.0) (λ w. cancelled_as self.now cancelling w ≡ Some x.1)) }
        ensures waits { IfSome result (λ x. waits self.now x.0 ≡ true) }
        ensures apart { IfSome result (λ _. AreApart self.now.parked) }
    {
        let client = self.earliest_cancelled(cancelling)?;
        let rule = self.cancelled(cancelling, client, self.parked.call_of(client))?;
        Some((client, rule))
    }

    /// The client of the earliest waiting call that ends.
    fn earliest_cancelled(&self, cancelling: Cancelling) -> Option<u32>
        requires lives { lives_in self.now cancelling ≡ true }
        ensures { result ≡ option_map (λ w. w.client) (find (λ w. is_some (cancelled_as self.now cancelling w)) self.now.parked) }
    {
        match cancelling {
            Cancelling::Denied(kind, id) | Cancelling::Removed(kind, id) => self.parked.on_object(
                kind,
                id,
                |client, call| self.cancelled(cancelling, client, call).is_some(),
            ),
            Cancelling::ThreadInterrupted(target) => self.if_waiting(target),
            Cancelling::Interrupted(_) | Cancelling::Ended(_) => self.earliest_thread(cancelling),
        }
    }

    /// The client, where a call of it waits.
    fn if_waiting(&self, client: u32) -> Option<u32>
        ensures { result ≡ (if waits self.now client then Some client else None) }
    {
        if self.is_waiting(client) {
            Some(client)
        } else {
            None
        }
    }

    /// The client of the earliest waiting call of the threads of a process. Those of other processes cost nothing.
    fn earliest_thread(&self, cancelling: Cancelling) -> Option<u32>
        requires lives { lives_in self.now cancelling ≡ true }
        ensures { result ≡ earliest_of self.now (is_named self.now cancelling) }
    {
        let mut earliest = None;
        let mut next = self.next_thread(cancelling, 0);
        while let Some(client) = next {
            earliest = self.earlier(earliest, client);
            next = self.next_thread(cancelling, client + 1);
        }
        earliest
    }

    /// The first client from this one on that is a thread of the process whose waiting calls end.
    fn next_thread(&self, cancelling: Cancelling, from: u32) -> Option<u32>
        requires lives { lives_in self.now cancelling ≡ true }
        ensures none { IfNone result ((c : ℕ) → from ≤ c → is_named self.now cancelling c ≡ false) }
        ensures there { IfSome result (λ client. is_named self.now cancelling client ≡ true) }
        ensures from { IfSome result (λ client. from ≤ client) }
        ensures least { IfSome result (λ client. (c : ℕ) → from ≤ c → c < client → is_named self.now cancelling c ≡ false) }
        ensures few { IfSome result (λ client. client < 4096) }
    {
        match cancelling {
            Cancelling::Interrupted(pid) => self.processes.next_with_pid(pid, from),
            Cancelling::Ended(client) => self.processes.next_of(client, from),
            _ => None,
        }
    }

    /// Whose call came first and waits: the client's that was found before, or this one's.
    pub(super) fn earlier(&self, found: Option<u32>, client: u32) -> Option<u32>
        requires { IfSome found (λ other. waits self.now other ≡ true) }
        ensures { result ≡ earliest_of self.now (λ c. is_found found c || c == client) }
    {
        if !self.is_waiting(client) {
            return found;
        }
        match found {
            Some(other) if self.parked.is_earlier(other, client) => found,
            _ => Some(client),
        }
    }

    /// The rule by which a waiting call ends.
    fn cancelled(&self, cancelling: Cancelling, client: u32, call: &Call) -> Option<Rule>
        requires client { client < length self.now.clients }
        requires waits { stands call.now ≡ true }
        ensures { result ≡ cancelled_as self.now cancelling (record { client = client; call = call.now; deadline = None }) }
    {
        match cancelling {
            Cancelling::Denied(kind, id) if waits_on(kind, id, call) => self.denial(client, call),
            Cancelling::Removed(kind, id) if waits_on(kind, id, call) => Some(Rule::Removed),
            Cancelling::Interrupted(pid) if pid == self.pid_of(client) => Some(Rule::Interrupted),
            Cancelling::ThreadInterrupted(target) if target == client => Some(Rule::Interrupted),
            Cancelling::Ended(of) if self.process_of(of) == self.process_of(client) => {
                Some(Rule::Ended)
            }
            _ => None,
        }
    }

    /// The rule of the right that the call needs on its object, where its client lacks it.
    #[tactic(auto, unfolding(ipc_model::specs::Decide::part_plan))]
    fn denial(&self, client: u32, call: &Call) -> Option<Rule>
        requires client { client < length self.now.clients }
        requires waits { stands call.now ≡ true }
        ensures { result ≡ first_denial (creds_at self.now client) (needs self.now client call.now) }
    {
        match call {
            Call::MsgSnd { id, .. } => self.denial_on(client, self.queues.perm(*id), TO_ALTER),
            Call::MsgRcv { id, .. } => self.denial_on(client, self.queues.perm(*id), TO_READ),
            Call::SemOp { id, ops } => {
                self.denial_on(client, self.sets.perm(*id), wanted_by(ops.as_slice()))
            }
            _ => unreachable!(),
        }
    }

    /// The rule of the right on an object of these permissions, where the client lacks it.
    fn denial_on(&self, client: u32, perm: Option<Perm>, want: Want) -> Option<Rule>
        requires { client < length self.now.clients }
        ensures { result ≡ first_denial (creds_at self.now client) (unwrap_or (option_map (λ p. Permission p want ∷ []) perm) []) }
    {
        let creds = &self.clients[client as usize];
        match decide(creds, &perm?, want) {
            Verdict::Allowed(_) => None,
            Verdict::Denied(rule) => Some(rule),
        }
    }
}
