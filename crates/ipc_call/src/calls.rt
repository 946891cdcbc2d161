//! What a client asks of the namespace.

ghost use Rattle.std.specs.Prelude.{◌≡◌, IfOk};

use crate::boxed::Boxed;
use crate::items::Items;
use crate::replies::Memory;

/// The kinds of objects. Each kind has keys, slots and identifiers of its own.
#[derive(Clone, Copy, Debug, PartialEq, Eq)]
pub enum Kind {
    /// Message queues (msgget(2)).
    Queue,
    /// Semaphore sets (semget(2)).
    Sems,
    /// Shared memory segments (shmget(2)).
    Segment,
}

/// One operation of semop on a semaphore of a set (sembuf of semop(2)).
#[derive(Clone, Copy, Debug, PartialEq, Eq)]
pub struct SemOper {
    /// The number of the semaphore in its set, from 0 (sem_num).
    pub num: u16,
    /// What is added to its value; 0 waits until the value is 0 (sem_op).
    pub op: i16,
    /// `IPC_NOWAIT` and `SEM_UNDO` (sem_flg).
    pub flags: u16,
}

/// The credentials of a thread, as those say who know them (credentials(7)): at most 32 supplementary groups, and the
/// capabilities as the bits of a set.
#[derive(Debug, Drop, PartialEq)]
pub struct Identity {
    pub euid: u32,
    pub egid: u32,
    pub groups: Items<u32>,
    pub caps: u8,
    pub ruid: u32,
    pub suid: u32,
    pub rgid: u32,
    pub sgid: u32,
}

impl Identity {
    /// A copy. The error comes only where an allocation fails.
    pub fn copy(&self) -> Result<Identity, Memory>
        ensures { IfOk result (λ copied. copied ≡ self.now) }
    {
        let groups = self.groups.copy()?;
        Ok(Identity {
            euid: self.euid,
            egid: self.egid,
            groups,
            caps: self.caps,
            ruid: self.ruid,
            suid: self.suid,
            rgid: self.rgid,
            sgid: self.sgid,
        })
    }
}

/// One call of a client with its arguments, as POSIX.1-2017 XSI IPC has it. Flag bits that a call doesn't
/// know are ignored.
#[derive(Debug, Drop, PartialEq)]
pub enum Call {
    /// The queue of a key (msgget(2)). Key 0 is IPC_PRIVATE and creates a queue each time. Of the flags,
    /// `IPC_CREAT` and `IPC_EXCL` are known; the low nine bits are the mode of a new queue, and of an
    /// existing one they ask for read (0444) and write (0222).
    MsgGet {
        key: u32,
        flags: u32,
    },
    /// Sends a message to a queue (msgsnd of msgop(2)): its type, at least 1, and its text, at most MSGMAX
    /// bytes. Of the flags `IPC_NOWAIT` is known.
    MsgSnd {
        id: u32,
        mtype: i64,
        text: Items<u8>,
        flags: u32,
    },
    /// Receives a message with a text of at most `size` bytes (msgrcv of msgop(2)). `msgtyp` 0 asks for the
    /// first message, above 0 for the first of this type, below 0 for the first of the lowest type that is
    /// at most its absolute value. Of the flags `IPC_NOWAIT`, `MSG_NOERROR` and `MSG_EXCEPT` are known.
    MsgRcv {
        id: u32,
        size: u64,
        msgtyp: i64,
        flags: u32,
    },
    /// The set of a key (semget(2)), with at least `nsems` semaphores. Key 0 is IPC_PRIVATE and creates a set of
    /// `nsems` semaphores each time. The flags are those of `MsgGet`.
    SemGet {
        key: u32,
        nsems: u32,
        flags: u32,
    },
    /// Carries out operations on the semaphores of a set, all or none (semop(2)): at least 1, at most SEMOPM.
    /// Each has flags of its own.
    SemOp {
        id: u32,
        ops: Items<SemOper>,
    },
    /// The same, and waits no longer than `timeout` seconds of the service's clock (semtimedop of semop(2)).
    SemTimedOp {
        id: u32,
        ops: Items<SemOper>,
        timeout: u64,
    },
    /// Reports the value of a semaphore (GETVAL of semctl(2)).
    GetVal {
        id: u32,
        num: u32,
    },
    /// Reports the process that set a semaphore last (GETPID of semctl(2)).
    GetPid {
        id: u32,
        num: u32,
    },
    /// Reports how many calls wait for a semaphore to rise (GETNCNT of semctl(2)).
    GetNcnt {
        id: u32,
        num: u32,
    },
    /// Reports how many calls wait for a semaphore to become 0 (GETZCNT of semctl(2)).
    GetZcnt {
        id: u32,
        num: u32,
    },
    /// Reports the values of all semaphores of a set (GETALL of semctl(2)).
    GetAll {
        id: u32,
    },
    /// Sets a semaphore to a value of 0 to SEMVMX, 32767 (SETVAL of semctl(2)).
    SetVal {
        id: u32,
        num: u32,
        value: i32,
    },
    /// Sets the semaphores of a set to as many values of 0 to SEMVMX (SETALL of semctl(2)).
    SetAll {
        id: u32,
        values: Items<i32>,
    },
    /// The segment of a key (shmget(2)), of at least `size` bytes. Key 0 is IPC_PRIVATE and creates a segment of `size`
    /// bytes each time, at least 1 and at most SHMMAX. The flags are those of `MsgGet`.
    ShmGet {
        key: u32,
        size: u64,
        flags: u32,
    },
    /// Attaches a segment under the least number that the client has free (shmat of shmop(2)). Of the flags
    /// `SHM_RDONLY` is known.
    ShmAt {
        id: u32,
        flags: u32,
    },
    /// Detaches what the client has attached under a number (shmdt of shmop(2)).
    ShmDt {
        att: u32,
    },
    /// Reads `len` bytes from an offset on of what is attached. It stands for mapped memory.
    ShmRead {
        att: u32,
        offset: u64,
        len: u64,
    },
    /// Writes bytes from an offset on of what is attached. It stands for mapped memory.
    ShmWrite {
        att: u32,
        offset: u64,
        bytes: Items<u8>,
    },
    /// Reports the state of an object (IPC_STAT of msgctl(2)).
    IpcStat {
        kind: Kind,
        id: u32,
    },
    /// Sets owner, group, the low nine bits of the mode, and where it is given the `msg_qbytes` of a queue
    /// (IPC_SET of msgctl(2), which always sets that).
    IpcSet {
        kind: Kind,
        id: u32,
        uid: u32,
        gid: u32,
        mode: u32,
        qbytes: Option<u64>,
    },
    /// Removes an object (IPC_RMID of msgctl(2), semctl(2) and shmctl(2)). A segment that is attached goes with its
    /// last attachment.
    IpcRmid {
        kind: Kind,
        id: u32,
    },
    /// Lists the objects of a kind that the client may read, by rising slot (ipcs(1)).
    Listing {
        kind: Kind,
    },
    /// Ends the waiting calls of all threads of a process, as signals that are caught would (EINTR of msgop(2)). It
    /// stands for kill(2).
    Interrupt {
        pid: u32,
    },
    /// Ends the waiting call of one thread, that of a client. It stands for tgkill(2).
    InterruptThread {
        client: u32,
    },
    /// Ends a process with all its threads (kill(2) with SIGKILL; of the own process exit_group(2)). Their waiting calls
    /// end first.
    Kill {
        pid: u32,
    },
    /// Gives the client another effective user and group, and other supplementary groups where some are given
    /// (seteuid(2), setegid(2) and setgroups(2) in one). It is the project's own.
    SetCreds {
        euid: u32,
        egid: u32,
        groups: Option<Items<u32>>,
    },
    /// Gives the client these credentials, as the kernel tells them of its thread. It is the project's own.
    Assume {
        creds: Boxed<Identity>,
    },
    /// The client, whose thread has ended, begins anew as the only thread of a new process of this pid, with these
    /// credentials. It is the project's own.
    Begin {
        pid: u32,
        creds: Boxed<Identity>,
    },
    /// A client whose thread has ended becomes the only thread of a new process of this pid, with the caller's
    /// credentials and the attachments of its process (fork(2)).
    Fork {
        child: u32,
        pid: u32,
    },
    /// A client whose thread has ended becomes one more thread of the caller's process, with its credentials (clone(2)).
    Clone {
        child: u32,
    },
    /// The process takes another pid. It stands for what the kernel tells only after a fork, and is the project's own.
    Name {
        pid: u32,
    },
    /// Ends the other threads of the process, and detaches what it has attached; the saved user and group become the
    /// effective ones (execve(2)).
    Exec,
    /// Ends the thread of the client, and with the last one its process (_exit(2)). What the semops of a process with
    /// `SEM_UNDO` left to undo is then added to the values (semadj of semop(2)), and what it has attached is detached.
    Exit,
}

impl Call {
    /// A copy. The error comes only where an allocation fails.
    pub fn copy(&self) -> Result<Call, Memory>
        ensures { IfOk result (λ copied. copied ≡ self.now) }
    {
        Ok(match *self {
            Call::MsgGet { key, flags } => Call::MsgGet { key, flags },
            Call::MsgSnd {
                id,
                mtype,
                ref text,
                flags,
            } => {
                let text = text.copy()?;
                Call::MsgSnd {
                    id,
                    mtype,
                    text,
                    flags,
                }
            }
            Call::MsgRcv {
                id,
                size,
                msgtyp,
                flags,
            } => Call::MsgRcv {
                id,
                size,
                msgtyp,
                flags,
            },
            Call::SemGet { key, nsems, flags } => Call::SemGet { key, nsems, flags },
            Call::SemOp { id, ref ops } => {
                let ops = ops.copy()?;
                Call::SemOp { id, ops }
            }
            Call::SemTimedOp {
                id,
                ref ops,
                timeout,
            } => {
                let ops = ops.copy()?;
                Call::SemTimedOp { id, ops, timeout }
            }
            Call::GetVal { id, num } => Call::GetVal { id, num },
            Call::GetPid { id, num } => Call::GetPid { id, num },
            Call::GetNcnt { id, num } => Call::GetNcnt { id, num },
            Call::GetZcnt { id, num } => Call::GetZcnt { id, num },
            Call::GetAll { id } => Call::GetAll { id },
            Call::SetVal { id, num, value } => Call::SetVal { id, num, value },
            Call::SetAll { id, ref values } => {
                let values = values.copy()?;
                Call::SetAll { id, values }
            }
            Call::ShmGet { key, size, flags } => Call::ShmGet { key, size, flags },
            Call::ShmAt { id, flags } => Call::ShmAt { id, flags },
            Call::ShmDt { att } => Call::ShmDt { att },
            Call::ShmRead { att, offset, len } => Call::ShmRead { att, offset, len },
            Call::ShmWrite {
                att,
                offset,
                ref bytes,
            } => {
                let bytes = bytes.copy()?;
                Call::ShmWrite { att, offset, bytes }
            }
            Call::IpcStat { kind, id } => Call::IpcStat { kind, id },
            Call::IpcSet {
                kind,
                id,
                uid,
                gid,
                mode,
                qbytes,
            } => Call::IpcSet {
                kind,
                id,
                uid,
                gid,
                mode,
                qbytes,
            },
            Call::IpcRmid { kind, id } => Call::IpcRmid { kind, id },
            Call::Listing { kind } => Call::Listing { kind },
            Call::Interrupt { pid } => Call::Interrupt { pid },
            Call::InterruptThread { client } => Call::InterruptThread { client },
            Call::Kill { pid } => Call::Kill { pid },
            Call::SetCreds {
                euid,
                egid,
                ref groups,
            } => {
                let groups = copied(groups)?;
                Call::SetCreds { euid, egid, groups }
            }
            Call::Assume { ref creds } => {
                let creds = copied_apart(creds)?;
                Call::Assume { creds }
            }
            Call::Begin { pid, ref creds } => {
                let creds = copied_apart(creds)?;
                Call::Begin { pid, creds }
            }
            Call::Fork { child, pid } => Call::Fork { child, pid },
            Call::Clone { child } => Call::Clone { child },
            Call::Name { pid } => Call::Name { pid },
            Call::Exec => Call::Exec,
            Call::Exit => Call::Exit,
        })
    }
}

fn copied(groups: &Option<Items<u32>>) -> Result<Option<Items<u32>>, Memory>
    ensures { IfOk result (λ copied. copied ≡ groups.now) }
{
    match groups {
        None => Ok(None),
        Some(groups) => Ok(Some(groups.copy()?)),
    }
}

/// A copy of credentials that a call carries apart.
fn copied_apart(creds: &Boxed<Identity>) -> Result<Boxed<Identity>, Memory>
    ensures { IfOk result (λ copied. copied ≡ creds.now) }
{
    let creds = creds.get();
    Boxed::new(creds.groups.alloc(), creds.copy()?)
}
