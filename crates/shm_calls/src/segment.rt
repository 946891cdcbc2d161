//! What a segment holds.

ghost use Rattle.std.specs.Prelude.{◌≡◌};
ghost use Rattle.ipc_model.specs.Controls.{status_of_segment};
ghost use Rattle.ipc_model.specs.Gets.{new_segment};

use ipc_call::{SegmentStatus, Status};
use ipc_objects::Object;
use object_calls::Caller;
use std::marker::Model;

/// The contents of a segment: its shmid_ds (shmctl(2)) without permissions and shm_ctime, and its bytes.
#[derive(Debug, Drop)]
pub struct Segment {
    /// Its bytes, and whether it is marked for removal.
    pub(super) memory: shm_seg::Segment,
    /// The process that created it, the number of its client plus 1.
    pub(super) creator: u32,
    /// The process that attached or detached it last, 0 for none.
    pub(super) last: u32,
    /// When a client attached it last, in seconds, 0 for never.
    pub(super) attach_time: u64,
    /// When a client detached it last, in seconds, 0 for never.
    pub(super) detach_time: u64,
}

impl Model for Segment {
    ghost use Rattle.ipc_model.specs.State.{Segment as Contents};

    ghost Value = { Contents };

    ghost view = { λ s. record {
      bytes = s.memory.bytes;
      is_marked = s.memory.is_marked;
      creator = s.creator;
      last = s.last;
      attach_time = s.attach_time;
      detach_time = s.detach_time;
    } };
}

impl Segment {
    /// A segment of `size` bytes that are 0, which the caller creates. It takes no memory for them.
    pub fn new(who: &Caller, size: u64) -> Segment
        ensures { result ≡ new_segment who.entry.now.pid size }
    {
        Segment {
            memory: shm_seg::Segment::new(size),
            creator: who.pid(),
            last: 0,
            attach_time: 0,
            detach_time: 0,
        }
    }
}

/// The state of a segment to which so many attachments are, as IPC_STAT tells it (shmctl(2)).
pub fn status(segment: &Object<Segment>, nattch: u64) -> Status
    ensures { result ≡ status_of_segment nattch segment.now }
{
    let Object {
        perm,
        change_time,
        contents,
    } = segment;
    Status::Segment(SegmentStatus {
        perm: *perm,
        is_marked: contents.memory.is_marked(),
        size: contents.memory.len(),
        nattch,
        cpid: contents.creator,
        lpid: contents.last,
        atime: contents.attach_time,
        dtime: contents.detach_time,
        ctime: *change_time,
    })
}
