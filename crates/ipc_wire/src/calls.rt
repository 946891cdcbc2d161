//! The call of the namespace that a process asks.

ghost use Rattle.std.specs.Prelude.{◌≡◌};
ghost use Rattle.ipc_wire.specs.Calls as spec;

use crate::requests::Ask;
use ipc_call::Call;

/// The identifier that a word of 64 bits names. One that is no identifier becomes the greatest number of 32 bits, which is
/// none either.
pub fn id_of(word: u64) -> u32
    ensures { result ≡ spec.id_of word }
{
    if word < 2147483648 {
        word as u32
    } else {
        u32::MAX
    }
}

impl Ask {
    /// The call of the namespace.
    pub fn call(self) -> Call
        ensures { result ≡ spec.call_of self }
    {
        match self {
            Ask::MsgGet { key, flags } => Call::MsgGet { key, flags },
            Ask::MsgSnd {
                id,
                mtype,
                text,
                flags,
            } => Call::MsgSnd {
                id: id_of(id),
                mtype,
                text,
                flags,
            },
            Ask::MsgRcv {
                id,
                size,
                msgtyp,
                flags,
            } => Call::MsgRcv {
                id: id_of(id),
                size,
                msgtyp,
                flags,
            },
            Ask::SemGet { key, nsems, flags } => Call::SemGet { key, nsems, flags },
            Ask::SemOp { id, opers } => Call::SemOp {
                id: id_of(id),
                ops: opers,
            },
            Ask::SemTimedOp { id, opers, timeout } => match timeout {
                None => Call::SemOp {
                    id: id_of(id),
                    ops: opers,
                },
                Some(timeout) => Call::SemTimedOp {
                    id: id_of(id),
                    ops: opers,
                    timeout,
                },
            },
            Ask::GetVal { id, num } => Call::GetVal { id: id_of(id), num },
            Ask::GetPid { id, num } => Call::GetPid { id: id_of(id), num },
            Ask::GetNcnt { id, num } => Call::GetNcnt { id: id_of(id), num },
            Ask::GetZcnt { id, num } => Call::GetZcnt { id: id_of(id), num },
            Ask::GetAll { id } => Call::GetAll { id: id_of(id) },
            Ask::SetVal { id, num, value } => Call::SetVal {
                id: id_of(id),
                num,
                value,
            },
            Ask::SetAll { id, values } => Call::SetAll {
                id: id_of(id),
                values,
            },
            Ask::ShmGet { key, size, flags } => Call::ShmGet { key, size, flags },
            Ask::ShmAt { id, flags } => Call::ShmAt {
                id: id_of(id),
                flags,
            },
            Ask::ShmDt { att } => Call::ShmDt { att },
            Ask::IpcStat { kind, id } => Call::IpcStat {
                kind,
                id: id_of(id),
            },
            Ask::IpcSet {
                kind,
                id,
                uid,
                gid,
                mode,
                qbytes,
            } => Call::IpcSet {
                kind,
                id: id_of(id),
                uid,
                gid,
                mode,
                qbytes,
            },
            Ask::IpcRmid { kind, id } => Call::IpcRmid {
                kind,
                id: id_of(id),
            },
        }
    }
}
