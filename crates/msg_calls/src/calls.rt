//! The calls on message queues: msgget(2), msgop(2).

ghost use Rattle.std.specs.Prelude.{
  ◌≡◌,
  ◌==◌,
  ◌+◌,
  ◌<◌,
  ℕ,
  List,
  Some,
  None,
  Ok,
  IfOk,
  OnOk,
  OnErr,
  length,
};
ghost use Rattle.ipc_call.specs.declared.limits.Limits.{Limits as LimitsOf};
ghost use Rattle.ipc_model.specs.State.{Queue as Contents, Queues as Table};
ghost use Rattle.ipc_model.specs.Decision.{left_by, outcome_of, without_answer};
ghost use Rattle.ipc_model.specs.Gets.{new_object as object_of, new_queue as new_contents, object_of_key};
ghost use Rattle.ipc_objects.specs.declared.object.Object.{Object as Entry};
ghost use Rattle.ipc_objects.specs.Seen.{seen};
ghost use Rattle.msg_calls.specs.Calls.{IsSent, MaySend, getting, getting_found, receiving, sending};
ghost use Rattle.msg_calls.specs.WithRoom.{one_if, queue_of, queues_of, room};

use crate::queue::Queue;
use crate::queues::Queues;
use ipc_call::{
    Answer, Get, Items, Limits, Memory, Outcome, Receive, Rule, Sending, creates, may_wait,
};
use ipc_objects::Object;
use ipc_perm::{Perm, TO_ALTER, TO_READ};
use object_calls::{Caller, may_open, new_object};
use std::alloc::Global;

impl Queues {
    /// The queue of a key, or a new one (msgget(2)). Memory comes where a growth was refused, and then nothing
    /// has changed.
    pub fn msgget(&mut self, limits: &Limits, who: &Caller, asked: Get) -> Result<Outcome, Memory>
        ensures outcome { IfOk result (λ outcome.
            outcome_of (getting limits.now (queues_of self.old) who.entry.now asked) ≡ Some outcome) }
        ensures queues { OnOk result (queues_of self.new
            ≡ left_by (queues_of self.old) (getting limits.now (queues_of self.old) who.entry.now asked)) }
        ensures room { (j : ℕ) → room self.new j ≡ room self.old j }
        ensures err { OnErr result (self.new ≡ self.old) }
    {
        match self.seek(asked.key) {
            None => self.make_queue(limits, who, asked),
            Some((id, queue)) => Ok(found_queue(who, id, &queue.perm, asked.flags)),
        }
    }

    /// msgget with a key that no queue has.
    fn make_queue(&mut self, limits: &Limits, who: &Caller, asked: Get) -> Result<Outcome, Memory>
        requires { object_of_key (queues_of self.old) asked.key ≡ None }
        ensures outcome { IfOk result (λ outcome.
            outcome_of (getting_found limits.now (queues_of self.old) who.entry.now asked None) ≡ Some outcome) }
        ensures queues { OnOk result (queues_of self.new ≡ left_by (queues_of self.old)
            (getting_found limits.now (queues_of self.old) who.entry.now asked None)) }
        ensures room { (j : ℕ) → room self.new j ≡ room self.old j }
        ensures err { OnErr result (self.new ≡ self.old) }
    {
        if asked.key != 0 && !creates(asked.flags) {
            return Ok(Err(Rule::NoKey));
        }
        if self.next_id().is_none() {
            return Ok(Err(Rule::NoSlot));
        }
        let queue = new_queue(self.alloc(), limits, who, asked);
        let id = self.insert(queue)?;
        Ok(Ok(Answer::Id(id)))
    }

    /// Receives a message (msgrcv of msgop(2)). None where the call waits. It takes no memory.
    pub fn msgrcv(&mut self, who: &Caller, id: u32, asked: Receive) -> Option<Outcome>
        ensures outcome { result ≡ outcome_of (receiving (queues_of self.old) who.entry.now id asked) }
        ensures queues { queues_of self.new
            ≡ left_by (queues_of self.old) (receiving (queues_of self.old) who.entry.now id asked) }
        ensures room { (j : ℕ) → room self.new j ≡ room self.old j }
    {
        if let Err(rule) = self.permitted(who, id, TO_READ) {
            return Some(Err(rule));
        }
        self.take_chosen(who, id, asked)
    }

    /// Whether such a message may be sent (msgsnd of msgop(2)), or by which rule it is refused.
    /// None where the call waits.
    #[inline(always)]
    pub fn decide_send(
        &self,
        limits: &Limits,
        who: &Caller,
        id: u32,
        asked: Sending,
    ) -> Option<Result<(), Rule>>
        ensures { (text : List ℕ) → length text ≡ asked.len → result ≡ without_answer
            (sending limits.now (queues_of self.now) who.entry.now id asked.flags
            (record { mtype = asked.mtype; text = text })) }
    {
        if asked.mtype < 1 {
            return Some(Err(Rule::BadType));
        }
        if asked.len as u64 > u64::from(limits.msg_max) {
            return Some(Err(Rule::TextTooLong));
        }
        let queue = match self.permitted(who, id, TO_ALTER) {
            Ok(queue) => queue,
            Err(rule) => return Some(Err(rule)),
        };
        if queue.contents.fits(asked.len) {
            Some(Ok(()))
        } else if may_wait(asked.flags) {
            None
        } else {
            Some(Err(Rule::QueueFull))
        }
    }

    /// Sends a message, which was decided (msgsnd of msgop(2)). Memory comes where a growth was refused, and then
    /// nothing has changed.
    pub fn msgsnd(
        &mut self,
        who: &Caller,
        id: u32,
        mtype: i64,
        text: Items<u8>,
    ) -> Result<(), Memory>
        requires { MaySend (queues_of self.old) who.now id (record { mtype = mtype; text = text }) }
        ensures queues { OnOk result (IsSent (queues_of self.old) who.entry.now id
            (record { mtype = mtype; text = text }) (queues_of self.new)) }
        ensures room { (j : ℕ) → room self.new j ≡ room self.old j }
        ensures err { OnErr result (self.new ≡ self.old) }
    {
        self.send(id, who, mtype, text)
    }

    /// Sends a message, which was decided, in a place that was reserved (msgsnd of msgop(2)). It takes no memory.
    pub fn send_reserved(&mut self, who: &Caller, id: u32, mtype: i64, text: Items<u8>)
        requires granted { MaySend (queues_of self.old) who.now id (record { mtype = mtype; text = text }) }
        requires reserved { 0 < room self.old id }
        ensures queues { IsSent (queues_of self.old) who.entry.now id
            (record { mtype = mtype; text = text }) (queues_of self.new) }
        ensures room { (j : ℕ) → room self.new j + one_if (j == id) ≡ room self.old j }
    {
        self.put(id, who, mtype, text);
    }
}

/// msgget with a key that a queue has.
fn found_queue(who: &Caller, id: u32, perm: &Perm, flags: u32) -> Outcome
    ensures outcome { (t : Table) (key : ℕ) (limits : LimitsOf) (queue : Entry Contents) → queue.perm ≡ perm.now
        → outcome_of (getting_found limits t who.entry.now (record { key = key; flags = flags })
        (Some (id, queue))) ≡ Some result }
{
    may_open(who, perm, flags)?;
    Ok(Answer::Id(id))
}

/// A queue that the caller owns and made, with the mode in the flags.
fn new_queue(alloc: Global, limits: &Limits, who: &Caller, asked: Get) -> Object<Queue>
    ensures queue { seen queue_of result ≡ object_of who.entry.now asked.key asked.flags (new_contents limits.now) }
    ensures reserved { result.contents.reserved ≡ 0 }
{
    new_object(
        who,
        asked.key,
        asked.flags,
        Queue::new(alloc, limits.msg_mnb),
    )
}
