// What can be looked at without a call: it is no event, and asks for no right.

ghost use Rattle.std.specs.Prelude.{◌≡◌, ◌<◌, ◌≤◌, ℕ, false, true, length, IfNone, IfOk, IfSome, IsSome, None, Some, if◌then◌else◌, option_copied, option_map, slice_get};
ghost use Rattle.ipc_call.specs.declared.replies.Waiting.{Waiting as WaitingCall};
ghost use Rattle.ipc_history.specs.History.{run};
ghost use Rattle.ipc_model.specs.Controls.{perm_of as perm_in, status_of as status_in};
ghost use Rattle.ipc_model.specs.Semaphores.{values_at};
ghost use Rattle.ipc_model.specs.State.{has_exited as exited_before, has_pid, pid_at, process_at, runs, thread_at, waiting_of as waiting_in};
ghost use Rattle.std.specs.List.{find};
ghost use Rattle.ipc_namespace.specs.Looking.{object_in, object_with_key, soonest, stopped_at as stopping_at};
ghost use Rattle.sem_undo.specs.Entries.{adj_of};
ghost use Rattle.shm_seg.specs.Attachments.{attachment_at};

use crate::space::Space;
use ipc_call::{Kind, Limits, Memory, Perm, SemOper, Status};
use ipc_creds::Creds;
use ipc_parked::Arrival;
use shm_seg::Attachment;

impl Space {
    /// The limits.
    pub fn limits(&self) -> Limits
        ensures { result ≡ (run self.now).limits }
    {
        self.ledger.namespace().limits()
    }

    /// The present credentials of a client, as calls have left them. None where there is no such client.
    pub fn creds_of(&self, client: u32) -> Option<&Creds>
        ensures { option_copied result ≡ slice_get (run self.now).clients client }
    {
        self.ledger.namespace().creds_of(client)
    }

    /// The pid of the client's process. None where the client's thread has ended, or there is no such client.
    pub fn pid_of(&self, client: u32) -> Option<u32>
        ensures { result ≡ (if exited_before (run self.now) client then None else Some (pid_at (run self.now) client)) }
    {
        let namespace = self.ledger.namespace();
        if namespace.has_exited(client) {
            return None;
        }
        Some(namespace.pid_of(client))
    }

    /// The serial number of the client's process, 0 for a client that isn't there. No two processes have the same.
    pub fn process_of(&self, client: u32) -> u64
        ensures { result ≡ process_at (run self.now) client }
    {
        self.ledger.namespace().process_of(client)
    }

    /// The first client that is a thread of the process of a pid. None where no process has it.
    pub fn with_pid(&self, pid: u32) -> Option<u32>
        ensures first { option_map (thread_at (run self.now)) result ≡ find (has_pid pid) (run self.now).threads }
        ensures known { IfSome result (λ client. client < length self.now.clients) }
    {
        self.ledger.namespace().with_pid(pid)
    }

    /// The first client from this one on that is a thread of the process of a client whose thread hasn't ended: so all of them,
    /// one after another. It takes no memory.
    pub fn next_thread_of(&self, client: u32, from: u32) -> Option<u32>
        requires alive { exited_before (run self.now) client ≡ false }
        ensures none { IfNone result ((c : ℕ) → from ≤ c → runs (process_at (run self.now) client) (thread_at (run self.now) c) ≡ false) }
        ensures there { IfSome result (λ found. runs (process_at (run self.now) client) (thread_at (run self.now) found) ≡ true) }
        ensures from { IfSome result (λ found. from ≤ found) }
        ensures least { IfSome result (λ found. (c : ℕ) → from ≤ c → c < found → runs (process_at (run self.now) client) (thread_at (run self.now) c) ≡ false) }
    {
        self.ledger.namespace().next_thread_of(client, from)
    }

    /// The least client whose thread has ended, which may begin anew. The time is linear in its number.
    pub fn free_client(&self) -> Option<u32>
        ensures none { IfNone result ((c : ℕ) → c < length self.now.clients → exited_before (run self.now) c ≡ false) }
        ensures known { IfSome result (λ client. client < length self.now.clients) }
        ensures free { IfSome result (λ client. exited_before (run self.now) client ≡ true) }
        ensures least { IfSome result (λ client. (c : ℕ) → c < client → exited_before (run self.now) c ≡ false) }
    {
        self.ledger.namespace().free_client()
    }

    /// The soonest deadline of a waiting call, in seconds of the clock (semtimedop of semop(2)). None where none has one.
    pub fn soonest_deadline(&self) -> Option<u64>
        ensures { result ≡ soonest (run self.now).parked }
    {
        self.ledger.namespace().soonest_deadline()
    }

    /// Whether the client's thread has ended.
    pub fn has_exited(&self, client: u32) -> bool
        ensures { result ≡ exited_before (run self.now) client }
    {
        self.ledger.namespace().has_exited(client)
    }

    /// The identifier of the object in a slot, from 0. None where the slot is free or there is no such slot.
    pub fn object_at(&self, kind: Kind, slot: u16) -> Option<u32>
        ensures { result ≡ object_in (run self.now) kind slot }
    {
        self.ledger.namespace().object_at(kind, slot)
    }

    /// The permissions of the object of an identifier.
    pub fn perm_of(&self, kind: Kind, id: u32) -> Option<Perm>
        ensures { result ≡ perm_in (run self.now) kind id }
    {
        self.ledger.namespace().perm_of(kind, id)
    }

    /// The permissions of the object of an identifier, and its state as IPC_STAT reports it.
    pub fn status_of(&self, kind: Kind, id: u32) -> Option<(Perm, Status)>
        ensures { result ≡ status_in (run self.now) kind id }
    {
        self.ledger.namespace().status_of(kind, id)
    }

    /// The identifier and the permissions of the object of a key. None for key 0, IPC_PRIVATE.
    pub fn with_key(&self, kind: Kind, key: u32) -> Option<(u32, Perm)>
        ensures { result ≡ object_with_key (run self.now) kind key }
    {
        self.ledger.namespace().with_key(kind, key)
    }

    /// The values of all semaphores of the set of an identifier; none where there is no such set. Memory (ENOMEM) comes
    /// where a growth was refused.
    pub fn values_of(&self, id: u32) -> Result<Vec<u16>, Memory>
        ensures { IfOk result (λ values. values.items ≡ values_at (run self.now).sems id) }
    {
        self.ledger.namespace().values_of(id)
    }

    /// The semadj of a client's process at a semaphore, which the end of that process adds (semop(2)): above 0 where it has
    /// taken some with SEM_UNDO.
    pub fn semadj_of(&self, client: u32, id: u32, num: u16) -> i32
        ensures { result ≡ adj_of (run self.now).sems.undo (process_at (run self.now) client) id num }
    {
        self.ledger.namespace().semadj_of(client, id, num)
    }

    /// The least number from this one on under which a client's process has something attached: so all of them, one after
    /// another.
    pub fn next_attachment(&self, client: u32, from: u32) -> Option<u32>
        ensures none { IfNone result ((n : ℕ) → from ≤ n → attachment_at (run self.now).shared.attached (process_at (run self.now) client) n ≡ None) }
        ensures there { IfSome result (λ next. IsSome (attachment_at (run self.now).shared.attached (process_at (run self.now) client) next)) }
        ensures from { IfSome result (λ next. from ≤ next) }
        ensures few { IfSome result (λ next. next < 4096) }
        ensures least { IfSome result (λ next. (n : ℕ) → from ≤ n → n < next → attachment_at (run self.now).shared.attached (process_at (run self.now) client) n ≡ None) }
    {
        self.ledger.namespace().next_attachment(client, from)
    }

    /// What a client's process has attached under a number.
    pub fn attachment_of(&self, client: u32, att: u32) -> Option<Attachment>
        ensures { result ≡ attachment_at (run self.now).shared.attached (process_at (run self.now) client) att }
    {
        self.ledger.namespace().attachment_of(client, att)
    }

    /// The client's call that waits, as what it waits (a semtimedop as the semop that it is), with its deadline and the
    /// place of the event that brought it.
    pub fn waiting_of(&self, client: u32) -> Option<&Arrival>
        ensures { option_map {U = WaitingCall} (λ a. record { client = client; call = a.call; deadline = a.deadline }) (option_copied result) ≡ waiting_in (run self.now) client }
    {
        self.ledger.namespace().waiting_of(client)
    }

    /// The operation at which the client's waiting semop stops (semop(2)). None where no semop of the client waits. It is
    /// tried anew in the set's own room, and leaves the namespace as it is.
    pub fn stopped_at(&mut self, client: u32) -> Option<SemOper>
        ensures stop { result ≡ stopping_at (run self.old) client }
        ensures same { self.new ≡ self.old }
    {
        self.ledger.stopped_at(client)
    }
}
