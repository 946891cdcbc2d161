//! The names of calls, as a script writes them, and of the objects that they name.

use crate::asked::{Asked, Target, asked_by, controlled_by};
use ipc_call::{Call, Kind};

/// The word of a call.
pub(crate) fn word_of(call: &Call) -> &'static str {
    match call {
        Call::MsgGet { .. } => "msgget",
        Call::MsgSnd { .. } => "msgsnd",
        Call::MsgRcv { .. } => "msgrcv",
        Call::SemGet { .. } => "semget",
        Call::SemOp { .. } => "semop",
        Call::SemTimedOp { .. } => "semtimedop",
        Call::GetVal { .. } => "getval",
        Call::GetPid { .. } => "getpid",
        Call::GetNcnt { .. } => "getncnt",
        Call::GetZcnt { .. } => "getzcnt",
        Call::GetAll { .. } => "getall",
        Call::SetVal { .. } => "setval",
        Call::SetAll { .. } => "setall",
        _ => other_word_of(call),
    }
}

fn other_word_of(call: &Call) -> &'static str {
    match call {
        Call::ShmGet { .. } => "shmget",
        Call::ShmAt { .. } => "shmat",
        Call::ShmDt { .. } => "shmdt",
        Call::ShmRead { .. } => "shmread",
        Call::ShmWrite { .. } => "shmwrite",
        Call::IpcStat { .. } => "stat",
        Call::IpcSet { .. } => "set",
        Call::IpcRmid { .. } => "rmid",
        Call::Listing { .. } => "ipcs",
        _ => process_word_of(call),
    }
}

fn process_word_of(call: &Call) -> &'static str {
    match call {
        Call::Interrupt { .. } | Call::InterruptThread { .. } => "interrupt",
        Call::SetCreds { .. } => "setcreds",
        Call::Fork { .. } => "fork",
        Call::Clone { .. } => "clone",
        Call::Exec => "exec",
        Call::Kill { .. } => "kill",
        Call::Begin { .. } => "begin",
        Call::Name { .. } => "name",
        Call::Assume { .. } => "assume",
        Call::Exit => "exit",
        _ => "call",
    }
}

/// The kind and the identifier that the call names.
pub(crate) fn object_of(call: &Call) -> Option<(Kind, u32)> {
    match asked_by(call) {
        Some(
            Asked {
                target: Target::Id(kind, id),
                ..
            },
        ) => Some((kind, id)),
        _ => controlled_by(call),
    }
}

/// The kind and the key of a get.
pub(crate) fn key_of(call: &Call) -> Option<(Kind, u32)> {
    match asked_by(call)?.target {
        Target::Key(kind, key) => Some((kind, key)),
        Target::Id(..) => None,
    }
}
