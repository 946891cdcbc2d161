//! What refuses calls on segments.

use crate::cases::{Case, Told};
use ipc_call::{Call, Kind, Status};
use ipc_space::Space;
use std::fmt::Write;

/// The size of a segment in bytes.
pub(crate) fn size_of(space: &Space, id: u32) -> Option<u64> {
    match space.status_of(Kind::Segment, id) {
        Some((_, Status::Segment(segment))) => Some(segment.size),
        _ => None,
    }
}

/// Tells the size that doesn't fit.
pub(crate) fn explain_size(out: &mut String, case: Case<'_>) -> Told {
    let Call::ShmGet { key, size, .. } = case.call else {
        return Ok(());
    };
    if let Some((id, _)) = case.space.with_key(Kind::Segment, *key) {
        if let Some(has) = size_of(case.space, id) {
            return write!(
                out,
                "{size} bytes are asked for, and segment {id} of this key has {has}\n"
            );
        }
    }
    let most = case.space.limits().shm_max;
    write!(
        out,
        "{size} bytes are asked for; a new segment has at least 1 and at most SHMMAX, {most}\n"
    )
}

/// The number, the offset and the length of a read or a write.
fn range_of(call: &Call) -> Option<(u32, u64, u64)> {
    match call {
        Call::ShmRead { att, offset, len } => Some((*att, *offset, *len)),
        Call::ShmWrite { att, offset, bytes } => Some((*att, *offset, bytes.len() as u64)),
        _ => None,
    }
}

/// Tells which range isn't within the segment.
pub(crate) fn explain_range(out: &mut String, case: Case<'_>) -> Told {
    let Some((att, offset, len)) = range_of(case.call) else {
        return Ok(());
    };
    let Some(attachment) = case.space.attachment_of(case.client, att) else {
        return Ok(());
    };
    let id = attachment.segment;
    let size = size_of(case.space, id).unwrap_or(0);
    write!(
        out,
        "{len} bytes from offset {offset} on are asked for, and segment {id} has {size}\n"
    )
}

/// Tells that the attachment is for reading.
pub(crate) fn explain_read_only(out: &mut String, case: Case<'_>) -> Told {
    let Some((att, ..)) = range_of(case.call) else {
        return Ok(());
    };
    let Some(attachment) = case.space.attachment_of(case.client, att) else {
        return Ok(());
    };
    let id = attachment.segment;
    write!(
        out,
        "attachment {att} is to segment {id}, made with SHM_RDONLY (010000); no mode and no capability changes that\n"
    )
}

/// Tells that nothing is attached under the number.
pub(crate) fn explain_not_attached(out: &mut String, case: Case<'_>) -> Told {
    match case.call {
        Call::ShmDt { att } | Call::ShmRead { att, .. } | Call::ShmWrite { att, .. } => {
            write!(out, "the caller has nothing attached under {att}\n")
        }
        _ => Ok(()),
    }
}
