//! What a program hands to a call, and what it gets.

ghost use Rattle.std.specs.Prelude.{◌≡◌, map, IfOk};
ghost use Rattle.call_values.specs.Operations.{sem_oper};

use crate::flags::{ReceiveFlags, SemFlags};
use bitflags::Flags;
use ipc_call::{Items, Memory, SemOper};
use ipc_creds::Caps;
use std::alloc::Global;

/// The process of a user: its effective, real and saved user and group are the same, and it has no supplementary groups.
#[derive(Clone, Copy, Debug, PartialEq, Eq)]
pub struct User {
    /// The user.
    pub uid: u32,
    /// The group.
    pub gid: u32,
    /// The capabilities.
    pub caps: Caps,
}

impl User {
    /// A user without capabilities.
    pub fn new(uid: u32, gid: u32) -> User
        ensures { result ≡ record { uid = uid; gid = gid; caps = record { 0 = 0 } } }
    {
        let caps = Caps::empty();
        User { uid, gid, caps }
    }

    /// The same with these capabilities.
    pub fn with_caps(self, caps: Caps) -> User
        ensures { result ≡ record self { caps = caps } }
    {
        User { caps, ..self }
    }
}

/// A message (msgop(2)): its type, at least 1, and its text, at most MSGMAX bytes.
#[derive(Debug, Drop)]
pub struct Message {
    /// The type.
    pub mtype: i64,
    /// The text, any bytes.
    pub text: Vec<u8>,
}

impl Message {
    /// A message with a copy of this text. Memory (ENOMEM) comes where an allocation fails.
    pub fn new(alloc: Global, mtype: i64, text: &[u8]) -> Result<Message, Memory>
        ensures { IfOk result (λ message. (message.mtype ≡ mtype) × (message.text.items ≡ text.now)) }
    {
        let text = Vec::from_slice(alloc, text)?;
        Ok(Message { mtype, text })
    }
}

/// Which message a msgrcv asks for (msgop(2)).
#[derive(Clone, Copy, Debug)]
pub struct Receive {
    /// The longest text, in bytes.
    pub size: u64,
    /// 0 for the first message, above 0 for the first of this type, below 0 for the first of the lowest type that is at most
    /// its absolute value.
    pub msgtyp: i64,
    /// `NOWAIT`, `NOERROR` and `EXCEPT`.
    pub flags: ReceiveFlags,
}

impl Receive {
    /// A message by this msgtyp, with no flags.
    pub fn new(size: u64, msgtyp: i64) -> Receive
        ensures { result ≡ record { size = size; msgtyp = msgtyp; flags = record { 0 = 0 } } }
    {
        let flags = ReceiveFlags::empty();
        Receive {
            size,
            msgtyp,
            flags,
        }
    }
}

/// One operation of a semop (sembuf of semop(2)).
#[derive(Clone, Copy, Debug, PartialEq, Eq)]
pub struct SemOp {
    /// The number of the semaphore in its set, from 0.
    pub num: u16,
    /// What is added to its value; 0 waits until the value is 0.
    pub op: i16,
    /// `NOWAIT` and `UNDO`.
    pub flags: SemFlags,
}

/// What is set of a semaphore set or a segment (IPC_SET of semctl(2) and shmctl(2)).
#[derive(Clone, Copy, Debug, PartialEq, Eq)]
pub struct Owner {
    /// The owner.
    pub uid: u32,
    /// The owner's group.
    pub gid: u32,
    /// The permission bits: the low nine count.
    pub mode: u32,
}

/// What a call comes to that may wait.
#[derive(Debug, Drop)]
pub enum Progress<T> {
    /// It was granted, with this answer.
    Done(T),
    /// It waits. Its answer is kept for the client when it comes.
    Waits,
}

/// How a call ended that waited, and wasn't refused.
#[derive(Debug, Drop)]
pub enum Ended {
    /// A msgsnd or a semop was granted.
    Done,
    /// A msgrcv has this message.
    Received(Message),
}

/// The operations as a call carries them. Memory (ENOMEM) comes where an allocation fails.
pub fn sem_opers(alloc: Global, ops: &[SemOp]) -> Result<Items<SemOper>, Memory>
    ensures { IfOk result (λ opers. opers ≡ map sem_oper ops.now) }
{
    let mut opers = Vec::with_capacity(alloc, ops.len())?;
    for op in ops {
        opers.push(SemOper {
            num: op.num,
            op: op.op,
            flags: op.flags.bits(),
        })?;
    }
    Ok(Items::new(opers))
}
