//! The calls on semaphore sets (semget(2), semop(2), semctl(2)).

ghost use Rattle.std.specs.Prelude.{◌≡◌, map, None};
ghost use Rattle.ipc_call.specs.declared.calls.Call.TheVariants as calls;
ghost use Rattle.ipc_call.specs.declared.calls.Kind.TheVariants as kinds;
ghost use Rattle.ipc_call.specs.declared.replies.Answer.TheVariants as answers;
ghost use Rattle.ipc_call.specs.declared.replies.Status.TheVariants as statuses;
ghost use Rattle.ipc_desk.specs.Desks.{Comes, told, told_progress};
ghost use Rattle.call_values.specs.Operations.{sem_oper};

use crate::desk::Desk;
use bitflags::Flags;
use call_values::{Client, Failure, GetFlags, Owner, Progress, SemOp, SetId, sem_opers};
use ipc_call::{Call, Items, Kind, SetStatus};

impl Desk {
    /// The set of a key, with at least `nsems` semaphores, which is created where `CREAT` is given and the key has none
    /// (semget(2)). Key 0 is IPC_PRIVATE and creates a set each time.
    pub fn semget(
        &mut self,
        client: Client,
        key: u32,
        nsems: u32,
        flags: GetFlags,
    ) -> Result<SetId, Failure>
        ensures { Comes self.old self.new client.0 (calls.SemGet key nsems flags.0)
            (told (λ set. answers.Id set.0) result) }
    {
        let flags = flags.bits();
        let id = self.ask_id(client, Call::SemGet { key, nsems, flags })?;
        Ok(SetId(id))
    }

    /// Carries out operations on a set, all or none (semop(2)): at least 1, at most SEMOPM. It waits where one can't go on,
    /// or is refused where that one has `NOWAIT`.
    pub fn semop(
        &mut self,
        client: Client,
        set: SetId,
        ops: &[SemOp],
    ) -> Result<Progress<()>, Failure>
        ensures { Comes self.old self.new client.0 (calls.SemOp set.0 (map sem_oper ops.now))
            (told_progress (λ done. answers.Done) result) }
    {
        let ops = sem_opers(self.alloc(), ops)?;
        self.ask_done_or_wait(client, Call::SemOp { id: set.0, ops })
    }

    /// The same, and waits no longer than `timeout` seconds of the desk's time (semtimedop of semop(2)).
    pub fn semtimedop(
        &mut self,
        client: Client,
        set: SetId,
        ops: &[SemOp],
        timeout: u64,
    ) -> Result<Progress<()>, Failure>
        ensures { Comes self.old self.new client.0 (calls.SemTimedOp set.0 (map sem_oper ops.now) timeout)
            (told_progress (λ done. answers.Done) result) }
    {
        let ops = sem_opers(self.alloc(), ops)?;
        let call = Call::SemTimedOp {
            id: set.0,
            ops,
            timeout,
        };
        self.ask_done_or_wait(client, call)
    }

    /// The value of a semaphore (GETVAL of semctl(2)).
    pub fn getval(&mut self, client: Client, set: SetId, num: u32) -> Result<u32, Failure>
        ensures { Comes self.old self.new client.0 (calls.GetVal set.0 num)
            (told (λ value. answers.Value value) result) }
    {
        self.ask_value(client, Call::GetVal { id: set.0, num })
    }

    /// The process that set a semaphore last (GETPID of semctl(2)), the number of its client plus 1, and 0 where none did.
    pub fn getpid(&mut self, client: Client, set: SetId, num: u32) -> Result<u32, Failure>
        ensures { Comes self.old self.new client.0 (calls.GetPid set.0 num)
            (told (λ value. answers.Value value) result) }
    {
        self.ask_value(client, Call::GetPid { id: set.0, num })
    }

    /// How many calls wait for a semaphore to rise (GETNCNT of semctl(2)).
    pub fn getncnt(&mut self, client: Client, set: SetId, num: u32) -> Result<u32, Failure>
        ensures { Comes self.old self.new client.0 (calls.GetNcnt set.0 num)
            (told (λ value. answers.Value value) result) }
    {
        self.ask_value(client, Call::GetNcnt { id: set.0, num })
    }

    /// How many calls wait for a semaphore to become 0 (GETZCNT of semctl(2)).
    pub fn getzcnt(&mut self, client: Client, set: SetId, num: u32) -> Result<u32, Failure>
        ensures { Comes self.old self.new client.0 (calls.GetZcnt set.0 num)
            (told (λ value. answers.Value value) result) }
    {
        self.ask_value(client, Call::GetZcnt { id: set.0, num })
    }

    /// The values of all semaphores of a set (GETALL of semctl(2)).
    pub fn getall(&mut self, client: Client, set: SetId) -> Result<Vec<u16>, Failure>
        ensures { Comes self.old self.new client.0 (calls.GetAll set.0)
            (told (λ values. answers.Values values.items) result) }
    {
        self.ask_values(client, Call::GetAll { id: set.0 })
    }

    /// Sets a semaphore to a value of 0 to SEMVMX, 32767 (SETVAL of semctl(2)).
    pub fn setval(
        &mut self,
        client: Client,
        set: SetId,
        num: u32,
        value: i32,
    ) -> Result<(), Failure>
        ensures { Comes self.old self.new client.0 (calls.SetVal set.0 num value) (told (λ done. answers.Done) result) }
    {
        let call = Call::SetVal {
            id: set.0,
            num,
            value,
        };
        self.ask_done(client, call)
    }

    /// Sets the semaphores of a set to as many values of 0 to SEMVMX (SETALL of semctl(2)).
    pub fn setall(&mut self, client: Client, set: SetId, values: &[i32]) -> Result<(), Failure>
        ensures { Comes self.old self.new client.0 (calls.SetAll set.0 values.now)
            (told (λ done. answers.Done) result) }
    {
        let values = Items::new(Vec::from_slice(self.alloc(), values)?);
        self.ask_done(client, Call::SetAll { id: set.0, values })
    }

    /// The state of a set (IPC_STAT of semctl(2)).
    pub fn sem_stat(&mut self, client: Client, set: SetId) -> Result<SetStatus, Failure>
        ensures { Comes self.old self.new client.0 (calls.IpcStat kinds.Sems set.0)
            (told (λ status. answers.Status (statuses.Set status)) result) }
    {
        let call = Call::IpcStat {
            kind: Kind::Sems,
            id: set.0,
        };
        self.ask_set_status(client, call)
    }

    /// Sets owner and mode of a set (IPC_SET of semctl(2)).
    pub fn sem_set(&mut self, client: Client, set: SetId, owner: Owner) -> Result<(), Failure>
        ensures { Comes self.old self.new client.0 (calls.IpcSet kinds.Sems set.0 owner.uid owner.gid owner.mode None)
            (told (λ done. answers.Done) result) }
    {
        let Owner { uid, gid, mode } = owner;
        let call = Call::IpcSet {
            kind: Kind::Sems,
            id: set.0,
            uid,
            gid,
            mode,
            qbytes: None,
        };
        self.ask_done(client, call)
    }

    /// Removes a set, which ends the calls that wait at it (IPC_RMID of semctl(2)).
    pub fn sem_rmid(&mut self, client: Client, set: SetId) -> Result<(), Failure>
        ensures { Comes self.old self.new client.0 (calls.IpcRmid kinds.Sems set.0)
            (told (λ done. answers.Done) result) }
    {
        let call = Call::IpcRmid {
            kind: Kind::Sems,
            id: set.0,
        };
        self.ask_done(client, call)
    }
}
