//! The message queues of a namespace.

ghost use Rattle.std.specs.Prelude.{
  ◌≡◌,
  ◌==◌,
  ◌+◌,
  ◌<◌,
  ◌≤◌,
  ℕ,
  false,
  Some,
  None,
  IfOk,
  IfErr,
  OnOk,
  OnErr,
  IfSome,
  IsSome,
  length,
  option_copied,
  option_map,
};
ghost use Rattle.ipc_ids.specs.Table.{empty_table, find_object, id_in, ids_of, next_id as id_of_next};
ghost use Rattle.ipc_ids.specs.Table.{with_object, without_object};
ghost use Rattle.ipc_model.specs.Controls.{perm_in, with_settings};
ghost use Rattle.ipc_model.specs.Gets.{object_of_key};
ghost use Rattle.ipc_model.specs.Decision.{Refused as RefusedBy, left_by, outcome_of};
ghost use Rattle.ipc_model.specs.Messages.{queue_at, with_message};
ghost use Rattle.ipc_model.specs.Plan.{Plan, decision};
ghost use Rattle.ipc_model.specs.State.{Queue as Contents, Queues as Table};
ghost use Rattle.ipc_objects.specs.declared.object.Object.{Object as Entry};
ghost use Rattle.ipc_objects.specs.Objects.{changed, has_key, with_contents};
ghost use Rattle.ipc_objects.specs.Seen.{seen};
ghost use Rattle.ipc_perm.specs.Access.{Permission, denial};
ghost use Rattle.object_calls.specs.Permitted.{permitted};
ghost use Rattle.msg_queue.specs.Messages.{is_full};
ghost use Rattle.msg_calls.specs.Calls.{taking_in};
ghost use Rattle.msg_calls.specs.WithRoom.{one_if, queue_of, queues_of, room};

use crate::queue::Queue;
use ipc_call::{Items, Memory, Outcome, Receive, Rule, Settings};
use ipc_objects::{Object, Objects};
use ipc_perm::{Perm, Want};
use object_calls::{Caller, owner_of};
use std::alloc::Global;
use std::marker::Model;

/// The queues of a namespace, by identifier and by key.
#[derive(Debug, Drop)]
pub struct Queues {
    objects: Objects<Queue>,
    alloc: Global,
}

impl Model for Queues {
    ghost use Rattle.std.specs.FinMap as map;
    ghost use Rattle.std.specs.Coded.{codes};
    ghost use Rattle.ipc_ids.specs.Table.{Table};
    ghost use Rattle.ipc_objects.specs.declared.object.Object.{Object as Entry};
    ghost use Rattle.msg_calls.specs.WithRoom.{QueueWithRoom};

    ghost Value = { Table (Entry QueueWithRoom) };

    ghost coded = { Prim.hlevel (codes, map.code) };

    ghost view = { λ q. q.objects };
}

impl Queues {
    /// No queue, with this many slots, at most 32768, and this sequence number in each.
    pub fn new(alloc: Global, slots: u32, first_seq: u16) -> Queues
        requires { slots ≤ 32768 }
        ensures queues { queues_of result ≡ empty_table slots first_seq }
        ensures room { (id : ℕ) → room result id ≡ 0 }
    {
        Queues {
            objects: Objects::new(alloc, slots, first_seq),
            alloc,
        }
    }

    /// The allocator of the queues.
    pub(super) fn alloc(&self) -> Global {
        self.alloc
    }

    /// The queue of a key, with its identifier. None for key 0, IPC_PRIVATE.
    pub(super) fn seek(&self, key: u32) -> Option<(u32, &Object<Queue>)>
        ensures { option_map (λ found. (found.0, seen queue_of found.1.now)) result
            ≡ object_of_key (queues_of self.now) key }
    {
        self.objects.seek(key)
    }

    /// The identifier and the permissions of the queue of a key. None for key 0, IPC_PRIVATE.
    pub fn find(&self, key: u32) -> Option<(u32, Perm)>
        ensures { result ≡ option_map (λ found. (found.0, found.1.perm)) (object_of_key (queues_of self.now) key) }
    {
        let (id, queue) = self.seek(key)?;
        Some((id, queue.perm))
    }

    /// The queue of an identifier.
    pub fn get(&self, id: u32) -> Option<&Object<Queue>>
        ensures { option_map (λ object. seen queue_of object) (option_copied result)
            ≡ queue_at (queues_of self.now) id }
    {
        self.objects.get(id)
    }

    /// The queue of an identifier, where there is one and the caller has these rights at it.
    pub(super) fn permitted(
        &self,
        who: &Caller,
        id: u32,
        want: Want,
    ) -> Result<&Object<Queue>, Rule>
        ensures there { IfOk result (λ queue. queue_at (queues_of self.now) id ≡ Some (seen queue_of queue.now)) }
        ensures permitted { IfOk result (λ queue. denial who.entry.now.creds (Permission queue.now.perm want) ≡ None) }
        ensures refused { (rest : Entry Contents → Plan Table) → IfErr result (λ rule.
            decision who.entry.now.creds (permitted (queue_at (queues_of self.now) id) want rest) ≡ RefusedBy rule) }
    {
        who.permitted(self.get(id), want)
    }

    /// The permissions of the queue of an identifier.
    pub fn perm(&self, id: u32) -> Option<Perm>
        ensures { result ≡ perm_in (queues_of self.now) id }
    {
        self.objects.perm(id)
    }

    /// The identifier of the queue in a slot.
    pub fn id_at(&self, slot: u16) -> Option<u32>
        ensures { result ≡ id_in (queues_of self.now) slot }
    {
        self.objects.id_at(slot)
    }

    /// The identifiers of the queues, by rising slot. Memory comes where a growth was refused.
    pub fn ids(&self) -> Result<Vec<u32>, Memory>
        ensures { IfOk result (λ ids. ids.items ≡ ids_of (queues_of self.now)) }
    {
        self.objects.ids()
    }

    /// The identifier of the next new queue, None where each slot holds one or is retired.
    pub(super) fn next_id(&self) -> Option<u32>
        ensures { result ≡ id_of_next (queues_of self.now) }
    {
        self.objects.next_id()
    }

    /// Adds a queue, whose key no other has, and answers its identifier. Memory comes where a growth was refused,
    /// and then nothing has changed.
    pub(super) fn insert(&mut self, queue: Object<Queue>) -> Result<u32, Memory>
        requires slot { IsSome (id_of_next (queues_of self.old)) }
        requires free { find_object (has_key queue.perm.key) (queues_of self.old) ≡ None }
        requires unreserved { queue.contents.reserved ≡ 0 }
        ensures id { IfOk result (λ id. id_of_next (queues_of self.old) ≡ Some id) }
        ensures ok { IfOk result (λ id.
            queues_of self.new ≡ with_object (queues_of self.old) id (seen queue_of queue)) }
        ensures room { (j : ℕ) → room self.new j ≡ room self.old j }
        ensures err { OnErr result (self.new ≡ self.old) }
    {
        self.objects.insert(queue)
    }

    /// Sets the owner, the mode and the msg_qbytes of the queue of an identifier, which there is, at a time
    /// in seconds (IPC_SET of msgctl(2)). It takes no memory.
    pub fn set(&mut self, id: u32, new: Settings, now: u64)
        requires { IsSome (queue_at (queues_of self.old) id) }
        ensures queues { queues_of self.new ≡ changed (queues_of self.old) id (with_settings now new) }
        ensures room { (j : ℕ) → room self.new j ≡ room self.old j }
    {
        let Some(queue) = self.objects.contents_mut(id) else {
            unreachable!()
        };
        queue.set_qbytes(new.qbytes);
        self.objects.set_owner(id, owner_of(new), now);
    }

    /// Reserves a place for a message to come in the queue of an identifier, which there is. Memory comes where a
    /// growth was refused, and then nothing has changed.
    pub fn reserve(&mut self, id: u32) -> Result<(), Memory>
        requires { IsSome (queue_at (queues_of self.old) id) }
        ensures queues { OnOk result (queues_of self.new ≡ queues_of self.old) }
        ensures room { OnOk result ((j : ℕ) → room self.new j ≡ room self.old j + one_if (j == id)) }
        ensures err { OnErr result (self.new ≡ self.old) }
    {
        let Some(queue) = self.objects.contents_mut(id) else {
            unreachable!()
        };
        queue.reserve()
    }

    /// Gives a reserved place of the queue of an identifier back.
    pub fn release(&mut self, id: u32)
        requires { 0 < room self.old id }
        ensures queues { queues_of self.new ≡ queues_of self.old }
        ensures room { (j : ℕ) → room self.new j + one_if (j == id) ≡ room self.old j }
    {
        let Some(queue) = self.objects.contents_mut(id) else {
            unreachable!()
        };
        queue.release();
    }

    /// Adds a message of the caller at the end of the queue of an identifier, which there is (msgsnd of msgop(2)).
    /// Memory comes where a growth was refused, and then nothing has changed.
    pub(super) fn send(
        &mut self,
        id: u32,
        who: &Caller,
        mtype: i64,
        text: Items<u8>,
    ) -> Result<(), Memory>
        requires there { IsSome (queue_at (queues_of self.old) id) }
        requires room { IfSome (queue_at (queues_of self.old) id)
            (λ queue. is_full queue.contents.messages queue.contents.qbytes (length text) ≡ false) }
        ensures queues { OnOk result (IfSome (queue_at (queues_of self.old) id) (λ queue. queues_of self.new
            ≡ with_contents (queues_of self.old) id
            (with_message who.entry.now (record { mtype = mtype; text = text }) queue.contents))) }
        ensures room { (j : ℕ) → room self.new j ≡ room self.old j }
        ensures err { OnErr result (self.new ≡ self.old) }
    {
        let Some(queue) = self.objects.contents_mut(id) else {
            unreachable!()
        };
        queue.reserve()?;
        queue.send(who, mtype, text);
        Ok(())
    }

    /// Adds a message of the caller at the end of the queue of an identifier, in a place that was reserved (msgsnd of
    /// msgop(2)). It takes no memory.
    pub(super) fn put(&mut self, id: u32, who: &Caller, mtype: i64, text: Items<u8>)
        requires reserved { 0 < room self.old id }
        requires room { IfSome (queue_at (queues_of self.old) id)
            (λ queue. is_full queue.contents.messages queue.contents.qbytes (length text) ≡ false) }
        ensures queues { IfSome (queue_at (queues_of self.old) id) (λ queue. queues_of self.new
            ≡ with_contents (queues_of self.old) id
            (with_message who.entry.now (record { mtype = mtype; text = text }) queue.contents)) }
        ensures room { (j : ℕ) → room self.new j + one_if (j == id) ≡ room self.old j }
    {
        let Some(queue) = self.objects.contents_mut(id) else {
            unreachable!()
        };
        queue.send(who, mtype, text);
    }

    /// Receives the message that a receiver takes of the queue of an identifier, which there is (msgrcv of msgop(2)):
    /// how the call ends, None where it waits. It takes no memory.
    pub(super) fn take_chosen(&mut self, who: &Caller, id: u32, asked: Receive) -> Option<Outcome>
        requires { IsSome (queue_at (queues_of self.old) id) }
        ensures outcome { IfSome (queue_at (queues_of self.old) id) (λ queue.
            result ≡ outcome_of (taking_in (queues_of self.old) id who.entry.now asked queue.contents)) }
        ensures queues { IfSome (queue_at (queues_of self.old) id) (λ queue. queues_of self.new
            ≡ left_by (queues_of self.old) (taking_in (queues_of self.old) id who.entry.now asked queue.contents)) }
        ensures room { (j : ℕ) → room self.new j ≡ room self.old j }
    {
        let Some(queue) = self.objects.contents_mut(id) else {
            unreachable!()
        };
        queue.take_chosen(who, asked)
    }

    /// Takes out the queue of an identifier, which there is and has no place reserved, and frees its key. It takes
    /// no memory.
    pub fn remove(&mut self, id: u32)
        requires there { IsSome (queue_at (queues_of self.old) id) }
        requires unreserved { room self.old id ≡ 0 }
        ensures queues { queues_of self.new ≡ without_object (queues_of self.old) id }
        ensures room { (j : ℕ) → room self.new j ≡ room self.old j }
    {
        self.objects.remove(id);
    }
}
