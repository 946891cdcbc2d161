//! A call's numbers and lists, and the call that they mean.

ghost use Rattle.std.specs.Prelude.{◌≡◌, None, Some, map, pos, slice_get, IfErr, IfOk};
ghost use Rattle.ipc_abi.specs.Operations.{kinds};
ghost use Rattle.ipc_abi.specs.Requests.{call_in, call_of, identity_of, lists_in, sem_oper, where_more};
ghost use Rattle.ipc_abi.specs.declared.requests.BadRequest.TheVariants.{Unknown};

use crate::operations::{Operation, kind_from_code};
use ipc_call::{Boxed, Call, Identity, Items, Kind, Memory, SemOper};
use std::alloc::Global;

/// A call, in numbers. docs/C.md says which of them each operation uses; it ignores the others.
#[repr(C)]
#[derive(Clone, Copy, Debug, PartialEq, Eq)]
pub struct RawRequest {
    /// The clock of the client, in seconds.
    pub clock: u64,
    /// The longest text of msgrcv, the size of a segment, the length of a read, and the `msg_qbytes` of IPC_SET, in bytes.
    pub size: u64,
    /// The offset in an attached segment, in bytes.
    pub offset: u64,
    /// The seconds that semtimedop waits at most.
    pub timeout: u64,
    /// The type of a message, and of msgrcv which one is asked for.
    pub mtype: i64,
    /// The operation's code.
    pub op: u32,
    /// The code of a kind of objects: 0 for queues, 1 for sets, 2 for segments.
    pub kind: u32,
    /// The identifier of an object, the number of an attachment, a pid, or the client that is interrupted.
    pub id: u32,
    /// The key of a get.
    pub key: u32,
    /// The flags.
    pub flags: u32,
    /// How many semaphores, which semaphore of a set, or the client of fork and clone.
    pub num: u32,
    /// The value of SETVAL.
    pub value: i32,
    /// The user of IPC_SET, and the effective one of setcreds, begin and assume.
    pub uid: u32,
    /// The group of IPC_SET, and the effective one of setcreds, begin and assume.
    pub gid: u32,
    /// The permission bits of IPC_SET.
    pub mode: u32,
    /// Not 0 where IPC_SET sets `msg_qbytes`, and where setcreds sets supplementary groups.
    pub more: u32,
    /// The real and the saved user and group of begin and assume.
    pub ruid: u32,
    pub rgid: u32,
    pub suid: u32,
    pub sgid: u32,
    /// The capabilities of begin and assume, each a bit.
    pub caps: u8,
}

/// One operation of semop (sembuf of semop(2)).
#[repr(C)]
#[derive(Clone, Copy, Debug, PartialEq, Eq)]
pub struct RawSemOper {
    pub num: u16,
    pub op: i16,
    pub flags: u16,
}

/// The lists of a call. An operation ignores those that it has no use for.
#[derive(Clone, Copy)]
pub struct Lists<'a> {
    /// The text of a message, or the bytes that are written.
    pub text: &'a [u8],
    /// The operations of a semop.
    pub ops: &'a [RawSemOper],
    /// The values of SETALL.
    pub values: &'a [u16],
    /// Supplementary groups.
    pub groups: &'a [u32],
}

/// Why a request is no call.
#[derive(Clone, Copy, Debug, PartialEq, Eq)]
pub enum BadRequest {
    /// It has the code of no operation, or of no kind.
    Unknown,
    /// An allocation fails (ENOMEM).
    Memory,
}

impl From<Memory> for BadRequest {
    ghost use Rattle.ipc_abi.specs.declared.requests.BadRequest.TheVariants.{Memory as NoMemory};

    ghost from_gives = { λ _ bad. bad ≡ NoMemory };

    fn from(_memory: Memory) -> BadRequest {
        BadRequest::Memory
    }
}

impl RawRequest {
    /// The call that it means with these lists.
    #[inline(always)]
    pub fn call(&self, alloc: Global, lists: Lists) -> Result<Call, BadRequest>
        ensures ok { IfOk result (λ call. call_in self.now (lists_in lists.entry) ≡ Some call) }
        ensures err { IfErr result (λ bad. bad ≡ Unknown → call_in self.now (lists_in lists.entry) ≡ None) }
    {
        match Operation::from_code(self.op) {
            None => Err(BadRequest::Unknown),
            Some(operation) => self.call_of(operation, alloc, lists),
        }
    }

    #[inline(always)]
    fn call_of(&self, operation: Operation, alloc: Global, lists: Lists) -> Result<Call, BadRequest>
        ensures ok { IfOk result (λ call. call_of operation self.now (lists_in lists.entry) ≡ Some call) }
        ensures err { IfErr result (λ bad. bad ≡ Unknown → call_of operation self.now (lists_in lists.entry) ≡ None) }
    {
        Ok(match operation {
            Operation::MsgGet => Call::MsgGet {
                key: self.key,
                flags: self.flags,
            },
            Operation::MsgSnd => Call::MsgSnd {
                id: self.id,
                mtype: self.mtype,
                text: items(alloc, lists.text)?,
                flags: self.flags,
            },
            Operation::MsgRcv => Call::MsgRcv {
                id: self.id,
                size: self.size,
                msgtyp: self.mtype,
                flags: self.flags,
            },
            Operation::SemGet => Call::SemGet {
                key: self.key,
                nsems: self.num,
                flags: self.flags,
            },
            Operation::SemOp => Call::SemOp {
                id: self.id,
                ops: sem_opers(alloc, lists.ops)?,
            },
            Operation::SemTimedOp => Call::SemTimedOp {
                id: self.id,
                ops: sem_opers(alloc, lists.ops)?,
                timeout: self.timeout,
            },
            Operation::GetVal => Call::GetVal {
                id: self.id,
                num: self.num,
            },
            Operation::GetPid => Call::GetPid {
                id: self.id,
                num: self.num,
            },
            Operation::GetNcnt => Call::GetNcnt {
                id: self.id,
                num: self.num,
            },
            Operation::GetZcnt => Call::GetZcnt {
                id: self.id,
                num: self.num,
            },
            Operation::GetAll => Call::GetAll { id: self.id },
            Operation::SetVal => Call::SetVal {
                id: self.id,
                num: self.num,
                value: self.value,
            },
            Operation::SetAll => Call::SetAll {
                id: self.id,
                values: values_of(alloc, lists.values)?,
            },
            Operation::ShmGet => Call::ShmGet {
                key: self.key,
                size: self.size,
                flags: self.flags,
            },
            Operation::ShmAt => Call::ShmAt {
                id: self.id,
                flags: self.flags,
            },
            Operation::ShmDt => Call::ShmDt { att: self.id },
            Operation::ShmRead => Call::ShmRead {
                att: self.id,
                offset: self.offset,
                len: self.size,
            },
            Operation::ShmWrite => Call::ShmWrite {
                att: self.id,
                offset: self.offset,
                bytes: items(alloc, lists.text)?,
            },
            Operation::IpcStat => Call::IpcStat {
                kind: self.kind()?,
                id: self.id,
            },
            Operation::IpcSet => Call::IpcSet {
                kind: self.kind()?,
                id: self.id,
                uid: self.uid,
                gid: self.gid,
                mode: self.mode,
                qbytes: if self.more == 0 {
                    None
                } else {
                    Some(self.size)
                },
            },
            Operation::IpcRmid => Call::IpcRmid {
                kind: self.kind()?,
                id: self.id,
            },
            Operation::Listing => Call::Listing { kind: self.kind()? },
            Operation::Interrupt => Call::Interrupt { pid: self.id },
            Operation::SetCreds => Call::SetCreds {
                euid: self.uid,
                egid: self.gid,
                groups: groups_of(alloc, self.more, lists.groups)?,
            },
            Operation::Exit => Call::Exit,
            Operation::InterruptThread => Call::InterruptThread { client: self.id },
            Operation::Kill => Call::Kill { pid: self.id },
            Operation::Assume => Call::Assume {
                creds: self.identity(alloc, lists.groups)?,
            },
            Operation::Begin => Call::Begin {
                pid: self.id,
                creds: self.identity(alloc, lists.groups)?,
            },
            Operation::Fork => Call::Fork {
                child: self.num,
                pid: self.id,
            },
            Operation::Clone => Call::Clone { child: self.num },
            Operation::Name => Call::Name { pid: self.id },
            Operation::Exec => Call::Exec,
        })
    }

    // The credentials that are handed in.
    fn identity(&self, alloc: Global, groups: &[u32]) -> Result<Boxed<Identity>, Memory>
        ensures { IfOk result (λ identity. identity ≡ identity_of self.now groups.now) }
    {
        let identity = Identity {
            euid: self.uid,
            egid: self.gid,
            groups: items(alloc, groups)?,
            caps: self.caps,
            ruid: self.ruid,
            suid: self.suid,
            rgid: self.rgid,
            sgid: self.sgid,
        };
        Boxed::new(alloc, identity)
    }

    // The kind of objects.
    fn kind(&self) -> Result<Kind, BadRequest>
        ensures ok { IfOk result (λ kind. slice_get kinds self.now.kind ≡ Some kind) }
        ensures err { IfErr result (λ bad. slice_get kinds self.now.kind ≡ None) }
    {
        kind_from_code(self.kind).ok_or(BadRequest::Unknown)
    }
}

fn items<T: Copy>(alloc: Global, list: &[T]) -> Result<Items<T>, Memory>
    ensures { IfOk result (λ items. items ≡ list.now) }
{
    Ok(Items::new(Vec::from_slice(alloc, list)?))
}

fn groups_of(alloc: Global, more: u32, groups: &[u32]) -> Result<Option<Items<u32>>, Memory>
    ensures { IfOk result (λ given. given ≡ where_more more groups.now) }
{
    if more == 0 {
        return Ok(None);
    }
    Ok(Some(items(alloc, groups)?))
}

fn sem_opers(alloc: Global, ops: &[RawSemOper]) -> Result<Items<SemOper>, Memory>
    ensures { IfOk result (λ items. items ≡ map sem_oper ops.now) }
{
    let mut opers = Vec::with_capacity(alloc, ops.len())?;
    for op in ops {
        opers.push_reserved(SemOper {
            num: op.num,
            op: op.op,
            flags: op.flags,
        });
    }
    Ok(Items::new(opers))
}

fn values_of(alloc: Global, values: &[u16]) -> Result<Items<i32>, Memory>
    ensures { IfOk result (λ items. items ≡ map pos values.now) }
{
    let mut widened = Vec::with_capacity(alloc, values.len())?;
    for value in values {
        widened.push(i32::from(*value))?;
    }
    Ok(Items::new(widened))
}
