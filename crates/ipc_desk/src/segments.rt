//! The calls on shared memory segments (shmget(2), shmop(2), shmctl(2)). No memory is shared with the program: `shm_read`
//! gives a copy of the bytes, and `shm_write` copies those that it is given.

ghost use Rattle.std.specs.Prelude.{◌≡◌, None};
ghost use Rattle.ipc_call.specs.declared.calls.Call.TheVariants as calls;
ghost use Rattle.ipc_call.specs.declared.calls.Kind.TheVariants as kinds;
ghost use Rattle.ipc_call.specs.declared.replies.Answer.TheVariants as answers;
ghost use Rattle.ipc_call.specs.declared.replies.Status.TheVariants as statuses;
ghost use Rattle.ipc_desk.specs.Desks.{Comes, told};

use crate::desk::Desk;
use bitflags::Flags;
use call_values::{AttachFlags, Attached, Client, Failure, GetFlags, Owner, SegmentId};
use ipc_call::{Call, Items, Kind, SegmentStatus};

impl Desk {
    /// The segment of a key, of at least `size` bytes, which is created where `CREAT` is given and the key has none
    /// (shmget(2)). Key 0 is IPC_PRIVATE and creates a segment each time.
    pub fn shmget(
        &mut self,
        client: Client,
        key: u32,
        size: u64,
        flags: GetFlags,
    ) -> Result<SegmentId, Failure>
        ensures { Comes self.old self.new client.0 (calls.ShmGet key size flags.0)
            (told (λ segment. answers.Id segment.0) result) }
    {
        let flags = flags.bits();
        let id = self.ask_id(client, Call::ShmGet { key, size, flags })?;
        Ok(SegmentId(id))
    }

    /// Attaches a segment under the least number that the client has free (shmat of shmop(2)).
    pub fn shmat(
        &mut self,
        client: Client,
        segment: SegmentId,
        flags: AttachFlags,
    ) -> Result<Attached, Failure>
        ensures { Comes self.old self.new client.0 (calls.ShmAt segment.0 flags.0)
            (told (λ attached. answers.Attached attached.0) result) }
    {
        let call = Call::ShmAt {
            id: segment.0,
            flags: flags.bits(),
        };
        let number = self.ask_attached(client, call)?;
        Ok(Attached(number))
    }

    /// Detaches what the client has attached under a number (shmdt of shmop(2)).
    pub fn shmdt(&mut self, client: Client, attached: Attached) -> Result<(), Failure>
        ensures { Comes self.old self.new client.0 (calls.ShmDt attached.0) (told (λ done. answers.Done) result) }
    {
        self.ask_done(client, Call::ShmDt { att: attached.0 })
    }

    /// A copy of `len` bytes from an offset on of what is attached. It stands for mapped memory.
    pub fn shm_read(
        &mut self,
        client: Client,
        attached: Attached,
        offset: u64,
        len: u64,
    ) -> Result<Vec<u8>, Failure>
        ensures { Comes self.old self.new client.0 (calls.ShmRead attached.0 offset len)
            (told (λ bytes. answers.Bytes bytes.items) result) }
    {
        let call = Call::ShmRead {
            att: attached.0,
            offset,
            len,
        };
        self.ask_bytes(client, call)
    }

    /// Writes bytes from an offset on of what is attached. It stands for mapped memory.
    pub fn shm_write(
        &mut self,
        client: Client,
        attached: Attached,
        offset: u64,
        bytes: &[u8],
    ) -> Result<(), Failure>
        ensures { Comes self.old self.new client.0 (calls.ShmWrite attached.0 offset bytes.now)
            (told (λ done. answers.Done) result) }
    {
        let bytes = Items::new(Vec::from_slice(self.alloc(), bytes)?);
        let call = Call::ShmWrite {
            att: attached.0,
            offset,
            bytes,
        };
        self.ask_done(client, call)
    }

    /// The state of a segment (IPC_STAT of shmctl(2)).
    pub fn shm_stat(&mut self, client: Client, segment: SegmentId) -> Result<SegmentStatus, Failure>
        ensures { Comes self.old self.new client.0 (calls.IpcStat kinds.Segment segment.0)
            (told (λ status. answers.Status (statuses.Segment status)) result) }
    {
        let call = Call::IpcStat {
            kind: Kind::Segment,
            id: segment.0,
        };
        self.ask_segment_status(client, call)
    }

    /// Sets owner and mode of a segment (IPC_SET of shmctl(2)).
    pub fn shm_set(
        &mut self,
        client: Client,
        segment: SegmentId,
        owner: Owner,
    ) -> Result<(), Failure>
        ensures { Comes self.old self.new client.0 (calls.IpcSet kinds.Segment segment.0 owner.uid owner.gid owner.mode None)
            (told (λ done. answers.Done) result) }
    {
        let Owner { uid, gid, mode } = owner;
        let call = Call::IpcSet {
            kind: Kind::Segment,
            id: segment.0,
            uid,
            gid,
            mode,
            qbytes: None,
        };
        self.ask_done(client, call)
    }

    /// Removes a segment (IPC_RMID of shmctl(2)). One that is attached goes with its last attachment.
    pub fn shm_rmid(&mut self, client: Client, segment: SegmentId) -> Result<(), Failure>
        ensures { Comes self.old self.new client.0 (calls.IpcRmid kinds.Segment segment.0)
            (told (λ done. answers.Done) result) }
    {
        let call = Call::IpcRmid {
            kind: Kind::Segment,
            id: segment.0,
        };
        self.ask_done(client, call)
    }
}
