//! The calls on message queues (msgget(2), msgop(2), msgctl(2)).

ghost use Rattle.std.specs.Prelude.{◌≡◌};
ghost use Rattle.ipc_call.specs.declared.calls.Call.TheVariants as calls;
ghost use Rattle.ipc_call.specs.declared.calls.Kind.TheVariants as kinds;
ghost use Rattle.ipc_call.specs.declared.replies.Answer.TheVariants as answers;
ghost use Rattle.ipc_call.specs.declared.replies.Status.TheVariants as statuses;
ghost use Rattle.ipc_desk.specs.Desks.{Comes, told, told_progress};

use crate::desk::Desk;
use bitflags::Flags;
use call_values::{Client, Failure, GetFlags, Message, Progress, QueueId, Receive, SendFlags};
use ipc_call::{Call, Items, Kind, QueueStatus, Settings};

impl Desk {
    /// The queue of a key, which is created where `CREAT` is given and the key has none (msgget(2)). Key 0 is IPC_PRIVATE and
    /// creates a queue each time.
    pub fn msgget(&mut self, client: Client, key: u32, flags: GetFlags) -> Result<QueueId, Failure>
        ensures { Comes self.old self.new client.0 (calls.MsgGet key flags.0)
            (told (λ queue. answers.Id queue.0) result) }
    {
        let flags = flags.bits();
        let id = self.ask_id(client, Call::MsgGet { key, flags })?;
        Ok(QueueId(id))
    }

    /// Sends a message to a queue (msgsnd of msgop(2)). Where the queue is full it waits, or is refused where `NOWAIT` is given.
    pub fn msgsnd(
        &mut self,
        client: Client,
        queue: QueueId,
        message: Message,
        flags: SendFlags,
    ) -> Result<Progress<()>, Failure>
        ensures { Comes self.old self.new client.0 (calls.MsgSnd queue.0 message.mtype message.text.items flags.0)
            (told_progress (λ done. answers.Done) result) }
    {
        let Message { mtype, text } = message;
        let call = Call::MsgSnd {
            id: queue.0,
            mtype,
            text: Items::new(text),
            flags: flags.bits(),
        };
        self.ask_done_or_wait(client, call)
    }

    /// Receives a message from a queue (msgrcv of msgop(2)). Where there is none to choose it waits, or is refused where
    /// `NOWAIT` is given.
    pub fn msgrcv(
        &mut self,
        client: Client,
        queue: QueueId,
        asked: Receive,
    ) -> Result<Progress<Message>, Failure>
        ensures { Comes self.old self.new client.0 (calls.MsgRcv queue.0 asked.size asked.msgtyp asked.flags.0)
            (told_progress (λ message. answers.Message message.mtype message.text.items) result) }
    {
        let Receive {
            size,
            msgtyp,
            flags,
        } = asked;
        let call = Call::MsgRcv {
            id: queue.0,
            size,
            msgtyp,
            flags: flags.bits(),
        };
        self.ask_message_or_wait(client, call)
    }

    /// The state of a queue (IPC_STAT of msgctl(2)).
    pub fn msg_stat(&mut self, client: Client, queue: QueueId) -> Result<QueueStatus, Failure>
        ensures { Comes self.old self.new client.0 (calls.IpcStat kinds.Queue queue.0)
            (told (λ status. answers.Status (statuses.Queue status)) result) }
    {
        let call = Call::IpcStat {
            kind: Kind::Queue,
            id: queue.0,
        };
        self.ask_queue_status(client, call)
    }

    /// Sets owner, mode and, where it is given, msg_qbytes of a queue (IPC_SET of msgctl(2)).
    pub fn msg_set(
        &mut self,
        client: Client,
        queue: QueueId,
        settings: Settings,
    ) -> Result<(), Failure>
        ensures { Comes self.old self.new client.0
            (calls.IpcSet kinds.Queue queue.0 settings.uid settings.gid settings.mode settings.qbytes)
            (told (λ done. answers.Done) result) }
    {
        let Settings {
            uid,
            gid,
            mode,
            qbytes,
        } = settings;
        let call = Call::IpcSet {
            kind: Kind::Queue,
            id: queue.0,
            uid,
            gid,
            mode,
            qbytes,
        };
        self.ask_done(client, call)
    }

    /// Removes a queue, which ends the calls that wait at it (IPC_RMID of msgctl(2)).
    pub fn msg_rmid(&mut self, client: Client, queue: QueueId) -> Result<(), Failure>
        ensures { Comes self.old self.new client.0 (calls.IpcRmid kinds.Queue queue.0)
            (told (λ done. answers.Done) result) }
    {
        let call = Call::IpcRmid {
            kind: Kind::Queue,
            id: queue.0,
        };
        self.ask_done(client, call)
    }
}
