//! What a message queue holds.

ghost use Rattle.std.specs.Prelude.{
  ◌≡◌,
  ◌+◌,
  ◌-◌,
  ◌<◌,
  ℕ,
  false,
  not,
  Some,
  OnOk,
  OnErr,
  [],
  length,
  take,
  unwrap_or,
};
ghost use Rattle.ipc_model.specs.Controls.{status_of_queue};
ghost use Rattle.ipc_model.specs.Decision.{left_by, outcome_of};
ghost use Rattle.ipc_model.specs.Messages.{with_message};
ghost use Rattle.ipc_objects.specs.Seen.{seen};
ghost use Rattle.msg_queue.specs.Messages.{is_full};
ghost use Rattle.msg_calls.specs.Calls.{taking};
ghost use Rattle.msg_calls.specs.WithRoom.{queue_of};

use ipc_call::{
    Answer, Items, Memory, Outcome, QueueStatus, Receive, Rule, Status, cuts_text, may_wait,
    takes_other_types,
};
use ipc_objects::Object;
use msg_queue::Queue as Messages;
use object_calls::Caller;
use std::alloc::Global;
use std::marker::Model;

/// The contents of a message queue: its msqid_ds (msgctl(2)) without permissions and msg_ctime, and its messages.
#[derive(Debug, Drop)]
pub struct Queue {
    messages: Messages,
    /// The process that sent last and that received last, 0 for none.
    last_sender: u32,
    last_receiver: u32,
    /// When a client sent last and received last, in seconds, 0 for never.
    send_time: u64,
    receive_time: u64,
}

impl Model for Queue {
    ghost use Rattle.msg_queue.specs.Queues.{contents};
    ghost use Rattle.msg_calls.specs.WithRoom.{QueueWithRoom};

    ghost Value = { QueueWithRoom };

    ghost view = { λ q. record {
      queue = record {
        messages = contents q.messages;
        qbytes = q.messages.qbytes;
        last_sender = q.last_sender;
        last_receiver = q.last_receiver;
        send_time = q.send_time;
        receive_time = q.receive_time;
      };
      reserved = q.messages.reserved;
    } };
}

impl Queue {
    /// A queue without messages, which holds at most so many bytes.
    pub fn new(alloc: Global, qbytes: u32) -> Queue
        ensures queue { result.queue ≡ record {
          messages = [];
          qbytes = qbytes;
          last_sender = 0;
          last_receiver = 0;
          send_time = 0;
          receive_time = 0;
        } }
        ensures reserved { result.reserved ≡ 0 }
    {
        Queue {
            messages: Messages::new(alloc, u64::from(qbytes)),
            last_sender: 0,
            last_receiver: 0,
            send_time: 0,
            receive_time: 0,
        }
    }

    /// Whether there is room for a message with a text of `len` bytes (msgsnd of msgop(2)).
    pub fn fits(&self, len: usize) -> bool
        ensures { result ≡ not (is_full self.now.queue.messages self.now.queue.qbytes len) }
    {
        self.messages.fits(len)
    }

    /// Reserves a place for a message to come. Memory comes where a growth was refused, and then nothing has changed.
    #[inline(always)]
    pub(super) fn reserve(&mut self) -> Result<(), Memory>
        ensures ok { OnOk result (self.new ≡ record self.old { reserved = self.old.reserved + 1 }) }
        ensures err { OnErr result (self.new ≡ self.old) }
    {
        self.messages.reserve_one()
    }

    /// Gives a reserved place back, for which no message comes.
    pub(super) fn release(&mut self)
        requires { 0 < self.old.reserved }
        ensures { self.new ≡ record self.old { reserved = self.old.reserved - 1 } }
    {
        self.messages.free_one();
    }

    /// Adds a message of the caller at the end, in a place that was reserved (msgsnd of msgop(2)). It takes no memory.
    #[inline(always)]
    pub(super) fn send(&mut self, who: &Caller, mtype: i64, text: Items<u8>)
        requires reserved { 0 < self.old.reserved }
        requires room { is_full self.old.queue.messages self.old.queue.qbytes (length text) ≡ false }
        ensures queue { self.new.queue
            ≡ with_message who.entry.now (record { mtype = mtype; text = text }) self.old.queue }
        ensures reserved { self.new.reserved + 1 ≡ self.old.reserved }
    {
        self.messages.put(mtype, text);
        self.last_sender = who.pid();
        self.send_time = who.now();
    }

    /// Receives the message that a receiver takes (msgrcv of msgop(2)): how the call ends, None where no message fits
    /// and it waits. It takes no memory.
    pub(super) fn take_chosen(&mut self, who: &Caller, asked: Receive) -> Option<Outcome>
        ensures outcome { result ≡ outcome_of (taking who.entry.now asked self.old.queue) }
        ensures queue { self.new.queue ≡ left_by self.old.queue (taking who.entry.now asked self.old.queue) }
        ensures reserved { self.new.reserved ≡ self.old.reserved }
    {
        let Some((place, len)) = self
            .messages
            .choose(asked.msgtyp, takes_other_types(asked.flags))
        else {
            return if may_wait(asked.flags) {
                None
            } else {
                Some(Err(Rule::NoMessage))
            };
        };
        if len as u64 > asked.size && !cuts_text(asked.flags) {
            return Some(Err(Rule::MessageTooLong));
        }
        let (mtype, mut text) = self.messages.take(place);
        text.truncate(asked.size as usize);
        self.last_receiver = who.pid();
        self.receive_time = who.now();
        Some(Ok(Answer::Message { mtype, text }))
    }

    /// Sets its msg_qbytes where that is given (IPC_SET of msgctl(2)).
    pub(super) fn set_qbytes(&mut self, qbytes: Option<u64>)
        ensures queue { self.new.queue ≡ record self.old.queue { qbytes = unwrap_or qbytes self.old.queue.qbytes } }
        ensures reserved { self.new.reserved ≡ self.old.reserved }
    {
        if let Some(qbytes) = qbytes {
            self.messages.set_qbytes(qbytes);
        }
    }
}

/// The state of a queue, as IPC_STAT tells it (msgctl(2)).
pub fn status(queue: &Object<Queue>) -> Status
    ensures { result ≡ status_of_queue (seen queue_of queue.now) }
{
    let Object {
        perm,
        change_time,
        contents,
    } = queue;
    Status::Queue(QueueStatus {
        perm: *perm,
        cbytes: contents.messages.bytes(),
        qnum: contents.messages.count() as u64,
        qbytes: contents.messages.qbytes(),
        lspid: contents.last_sender,
        lrpid: contents.last_receiver,
        stime: contents.send_time,
        rtime: contents.receive_time,
        ctime: *change_time,
    })
}
