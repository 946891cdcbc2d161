//! What refuses calls on queues.

use crate::cases::{Case, Told};
use ipc_call::{Call, Kind, QueueStatus, Status, cuts_text};
use ipc_space::Space;
use std::fmt::Write;

/// The state of a queue, as IPC_STAT reports it.
pub(crate) fn queue_at(space: &Space, id: u32) -> Option<QueueStatus> {
    match space.status_of(Kind::Queue, id) {
        Some((_, Status::Queue(queue))) => Some(queue),
        _ => None,
    }
}

/// Tells what the queue holds, and what there is no room for.
pub(crate) fn explain_full(out: &mut String, case: Case<'_>) -> Told {
    let Call::MsgSnd { id, text, .. } = case.call else {
        return Ok(());
    };
    let len = text.len();
    print_fill(out, case.space, *id, len)?;
    out.push_str("; IPC_NOWAIT (04000) doesn't wait for room\n")
}

/// Appends what a queue holds beside what is to be sent.
pub(crate) fn print_fill(out: &mut String, space: &Space, id: u32, len: usize) -> Told {
    let Some(queue) = queue_at(space, id) else {
        return Ok(());
    };
    let QueueStatus {
        cbytes,
        qnum,
        qbytes,
        ..
    } = queue;
    write!(
        out,
        "queue {id} holds {cbytes} bytes in {qnum} messages, and at most {qbytes} bytes and messages; the text has {len} bytes"
    )
}

/// Tells which message there isn't.
pub(crate) fn explain_no_message(out: &mut String, case: Case<'_>) -> Told {
    let Call::MsgRcv {
        id,
        msgtyp,
        flags,
        ..
    } = case.call
    else {
        return Ok(());
    };
    let count = queue_at(case.space, *id).map_or(0, |queue| queue.qnum);
    write!(out, "none of the {count} messages of queue {id} is ")?;
    print_sought(out, *msgtyp, *flags)?;
    out.push_str("; IPC_NOWAIT (04000) doesn't wait for one\n")
}

/// Appends which messages a receiver takes.
pub(crate) fn print_sought(out: &mut String, msgtyp: i64, flags: u32) -> Told {
    if msgtyp == 0 {
        out.push_str("a message of any type")
    } else if msgtyp < 0 {
        let most = msgtyp.unsigned_abs();
        write!(out, "a message of a type of at most {most}")
    } else if ipc_call::takes_other_types(flags) {
        write!(out, "a message of another type than {msgtyp}")
    } else {
        write!(out, "a message of type {msgtyp}")
    }
}

/// Tells which text was too long.
pub(crate) fn explain_too_long(out: &mut String, case: Case<'_>) -> Told {
    match case.call {
        Call::MsgRcv {
            size,
            msgtyp,
            flags,
            ..
        } => {
            out.push_str("there is ")?;
            print_sought(out, *msgtyp, *flags)?;
            let cuts = cuts_text(*flags);
            write!(
                out,
                ", whose text is longer than the {size} bytes asked for"
            )?;
            out.push_str(if cuts {
                "\n"
            } else {
                "; MSG_NOERROR (010000) would cut it\n"
            })
        }
        Call::MsgSnd { text, .. } => {
            let (len, most) = (text.len(), case.space.limits().msg_max);
            write!(out, "the text has {len} bytes, and MSGMAX is {most}\n")
        }
        _ => Ok(()),
    }
}

/// Tells which type no message may have.
pub(crate) fn explain_type(out: &mut String, case: Case<'_>) -> Told {
    let Call::MsgSnd { mtype, .. } = case.call else {
        return Ok(());
    };
    write!(out, "type {mtype}: the least type of a message is 1\n")
}
