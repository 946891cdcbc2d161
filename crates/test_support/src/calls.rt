//! Calls, and what is in replies.

use ipc_call::{Answer, Call, IPC_CREAT, Items, Reply, SemOper};
use std::alloc::{AllocError, Global};

/// Gets the queue of a key, which is created where there is none.
pub fn get(key: u32) -> Call {
    let flags = IPC_CREAT | 0o600;
    Call::MsgGet { key, flags }
}

/// A text of two bytes.
pub fn text(alloc: Global) -> Result<Items<u8>, AllocError> {
    Ok(Items::new(vec![in alloc; b'h', b'i']?))
}

/// Sends that text to the first queue.
pub fn send(alloc: Global, mtype: i64) -> Result<Call, AllocError> {
    Ok(Call::MsgSnd {
        id: 0,
        mtype,
        text: text(alloc)?,
        flags: 0,
    })
}

/// Receives a message of a queue, of at most ten bytes, for which it waits.
pub fn receive(id: u32, msgtyp: i64) -> Call {
    Call::MsgRcv {
        id,
        size: 10,
        msgtyp,
        flags: 0,
    }
}

/// One operation on a semaphore of the first set.
pub fn semop(alloc: Global, num: u16, op: i16, flags: u16) -> Result<Call, AllocError> {
    let ops = Items::new(vec![in alloc; SemOper { num, op, flags }]?);
    Ok(Call::SemOp { id: 0, ops })
}

/// The answer in a reply, None where it is a refusal or an allocation failed.
pub fn answer_in(reply: Reply) -> Option<Answer> {
    match reply {
        Reply::Entered {
            outcome: Ok(answer),
            ..
        } => Some(answer),
        _ => None,
    }
}

/// Whether an event's own call was granted.
pub fn is_granted(own: &Option<Reply>) -> bool {
    matches!(own, Some(Reply::Entered { outcome: Ok(_), .. }))
}
