// What can be looked at without a call: it is no event, and asks for no right.

ghost use Rattle.std.specs.Prelude.{◌≡◌, ◌<◌, ◌≤◌, ℕ, false, true, length, IfNone, IfOk, IfSome, IsSome, None, option_copied, option_map, slice_get};
ghost use Rattle.ipc_call.specs.declared.replies.Waiting.{Waiting as WaitingCall};
ghost use Rattle.ipc_model.specs.Controls.{perm_of as perm_in, status_of as status_in};
ghost use Rattle.ipc_model.specs.Semaphores.{values_at};
ghost use Rattle.ipc_model.specs.State.{has_exited as exited_before, has_pid, pid_at, process_at, runs, thread_at, waiting_of as waiting_in};
ghost use Rattle.std.specs.List.{find};
ghost use Rattle.ipc_namespace.specs.Looking.{object_in, object_with_key, soonest, stopped_at as stopping_at};
ghost use Rattle.sem_undo.specs.Entries.{adj_of};
ghost use Rattle.shm_seg.specs.Attachments.{attachment_at};

use crate::callers::process_in;
use crate::namespace::Namespace;
use ipc_call::{Call, Kind, Limits, Memory, SemOper, Status};
use ipc_creds::Creds;
use ipc_parked::Arrival;
use ipc_perm::Perm;
use shm_seg::Attachment;

impl Namespace {
    /// The limits.
    pub fn limits(&self) -> Limits
        ensures { result ≡ self.now.limits }
    {
        self.limits
    }

    /// The present credentials of a client. None where there is no such client.
    pub fn creds_of(&self, client: u32) -> Option<&Creds>
        ensures { option_copied result ≡ slice_get self.now.clients client }
    {
        self.clients.get(client as usize)
    }

    /// Whether the client has ended.
    pub fn has_exited(&self, client: u32) -> bool
        ensures { result ≡ exited_before self.now client }
    {
        match self.processes.threads().get(client as usize) {
            None => true,
            Some(thread) => thread.has_ended,
        }
    }

    /// The serial number of the client's process, 0 for a client that isn't there.
    pub fn process_of(&self, client: u32) -> u64
        ensures { result ≡ process_at self.now client }
    {
        process_in(self.processes.threads(), client)
    }

    /// The pid of the client's process (getpid(2)), 0 for a client that isn't there.
    pub fn pid_of(&self, client: u32) -> u32
        ensures { result ≡ pid_at self.now client }
    {
        match self.processes.threads().get(client as usize) {
            None => 0,
            Some(thread) => thread.pid,
        }
    }

    /// The first client that is a thread of the process of a pid.
    pub fn with_pid(&self, pid: u32) -> Option<u32>
        ensures first { option_map (thread_at self.now) result ≡ find (has_pid pid) self.now.threads }
        ensures known { IfSome result (λ client. client < length self.now.clients) }
    {
        self.processes.with_pid(pid)
    }

    /// The first client from this one on that is a thread of the process of a client whose thread hasn't ended: so all of them,
    /// one after another. It takes no memory, and the threads of other processes cost nothing.
    pub fn next_thread_of(&self, client: u32, from: u32) -> Option<u32>
        requires alive { exited_before self.now client ≡ false }
        ensures none { IfNone result ((c : ℕ) → from ≤ c → runs (process_at self.now client) (thread_at self.now c) ≡ false) }
        ensures there { IfSome result (λ found. runs (process_at self.now client) (thread_at self.now found) ≡ true) }
        ensures from { IfSome result (λ found. from ≤ found) }
        ensures least { IfSome result (λ found. (c : ℕ) → from ≤ c → c < found → runs (process_at self.now client) (thread_at self.now c) ≡ false) }
    {
        self.processes.next_of(client, from)
    }

    /// The least client whose thread has ended, which may begin anew. The time is linear in its number.
    pub fn free_client(&self) -> Option<u32>
        ensures none { IfNone result ((c : ℕ) → c < length self.now.clients → exited_before self.now c ≡ false) }
        ensures known { IfSome result (λ client. client < length self.now.clients) }
        ensures free { IfSome result (λ client. exited_before self.now client ≡ true) }
        ensures least { IfSome result (λ client. (c : ℕ) → c < client → exited_before self.now c ≡ false) }
    {
        let threads = self.processes.threads();
        for client in 0..threads.len() {
            if threads[client].has_ended {
                return Some(client as u32);
            }
        }
        None
    }

    /// The soonest deadline of a waiting call, in seconds of the clock (semtimedop of semop(2)). None where none has one. It is
    /// known without a walk.
    pub fn soonest_deadline(&self) -> Option<u64>
        ensures { result ≡ soonest self.now.parked }
    {
        self.parked.soonest()
    }

    /// The identifier of the object in a slot, from 0.
    pub fn object_at(&self, kind: Kind, slot: u16) -> Option<u32>
        ensures { result ≡ object_in self.now kind slot }
    {
        match kind {
            Kind::Queue => self.queues.id_at(slot),
            Kind::Sems => self.sets.id_at(slot),
            Kind::Segment => self.segments.id_at(slot),
        }
    }

    /// The permissions of the object of an identifier.
    pub fn perm_of(&self, kind: Kind, id: u32) -> Option<Perm>
        ensures { result ≡ perm_in self.now kind id }
    {
        match kind {
            Kind::Queue => self.queues.perm(id),
            Kind::Sems => self.sets.perm(id),
            Kind::Segment => self.segments.perm(id),
        }
    }

    /// The permissions and the state of the object of an identifier.
    pub fn status_of(&self, kind: Kind, id: u32) -> Option<(Perm, Status)>
        ensures { result ≡ status_in self.now kind id }
    {
        match kind {
            Kind::Queue => {
                let queue = self.queues.get(id)?;
                Some((queue.perm, msg_calls::status(queue)))
            }
            Kind::Sems => {
                let set = self.sets.get(id)?;
                Some((set.perm, sem_calls::status(set)))
            }
            Kind::Segment => {
                let segment = self.segments.get(id)?;
                let nattch = self.segments.nattch(id);
                Some((segment.perm, shm_calls::status(segment, nattch)))
            }
        }
    }

    /// The identifier and the permissions of the object of a key. None for key 0, IPC_PRIVATE.
    pub fn with_key(&self, kind: Kind, key: u32) -> Option<(u32, Perm)>
        ensures { result ≡ object_with_key self.now kind key }
    {
        match kind {
            Kind::Queue => self.queues.find(key),
            Kind::Sems => self.sets.find(key),
            Kind::Segment => self.segments.find(key),
        }
    }

    /// The values of all semaphores of the set of an identifier; none where there is no such set. The error comes only
    /// where an allocation fails.
    pub fn values_of(&self, id: u32) -> Result<Vec<u16>, Memory>
        ensures { IfOk result (λ values. values.items ≡ values_at self.now.sems id) }
    {
        self.sets.values(id)
    }

    /// The semadj of a client's process at a semaphore, which the end of that process adds (semop(2)).
    pub fn semadj_of(&self, client: u32, id: u32, num: u16) -> i32
        ensures { result ≡ adj_of self.now.sems.undo (process_at self.now client) id num }
    {
        self.sets.semadj(self.process_of(client), id, num)
    }

    /// The least number from this one on under which a client's process has something attached: so all of them, one after
    /// another.
    pub fn next_attachment(&self, client: u32, from: u32) -> Option<u32>
        ensures none { IfNone result ((n : ℕ) → from ≤ n → attachment_at self.now.shared.attached (process_at self.now client) n ≡ None) }
        ensures there { IfSome result (λ next. IsSome (attachment_at self.now.shared.attached (process_at self.now client) next)) }
        ensures from { IfSome result (λ next. from ≤ next) }
        ensures few { IfSome result (λ next. next < 4096) }
        ensures least { IfSome result (λ next. (n : ℕ) → from ≤ n → n < next → attachment_at self.now.shared.attached (process_at self.now client) n ≡ None) }
    {
        self.segments.next_attachment(self.process_of(client), from)
    }

    /// What a client's process has attached under a number.
    pub fn attachment_of(&self, client: u32, att: u32) -> Option<Attachment>
        ensures { result ≡ attachment_at self.now.shared.attached (process_at self.now client) att }
    {
        self.segments.attachment(self.process_of(client), att)
    }

    /// The client's call that waits, as what it waits, with its deadline.
    pub fn waiting_of(&self, client: u32) -> Option<&Arrival>
        ensures { option_map {U = WaitingCall} (λ a. record { client = client; call = a.call; deadline = a.deadline }) (option_copied result) ≡ waiting_in self.now client }
    {
        self.parked.get(client)
    }

    /// The operation at which the client's waiting semop stops (semop(2)). None where no semop of the client waits. It
    /// leaves the namespace as it is.
    pub fn stopped_at(&mut self, client: u32) -> Option<SemOper>
        ensures stop { result ≡ stopping_at self.old client }
        ensures same { self.new ≡ self.old }
    {
        let process = self.process_of(client);
        let arrival = self.parked.get(client)?;
        let Call::SemOp { id, ops } = &arrival.call else {
            return None;
        };
        self.sets.stopping(process, *id, ops.as_slice())
    }
}
