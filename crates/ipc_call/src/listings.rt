//! The rows of a listing.

ghost use Rattle.std.specs.Prelude.{◌≡◌};
ghost use Rattle.ipc_call.specs.Listings.{listed_of, row_of};

use crate::perms::{Mode, Perm};
use crate::replies::Status;

/// What a listing shows of an object of any kind (ipcs(1)).
#[derive(Clone, Copy, Debug, PartialEq, Eq)]
pub struct Listed {
    /// Its key, 0 for IPC_PRIVATE.
    pub key: u32,
    /// Its identifier.
    pub id: u32,
    /// Its owner.
    pub uid: u32,
    /// Its permission bits.
    pub mode: Mode,
}

/// What a listing shows of an object, by its kind (ipcs(1)). Sizes are in bytes.
#[derive(Clone, Copy, Debug, PartialEq, Eq)]
pub enum Row {
    /// A queue: the bytes of the texts of all messages, and how many messages there are.
    Queue {
        object: Listed,
        cbytes: u64,
        qnum: u64,
    },
    /// A semaphore set: how many semaphores it has.
    Set {
        object: Listed,
        nsems: u64,
    },
    /// A segment: whether it is removed with its last attachment (SHM_DEST), its size, and how many attachments are to
    /// it.
    Segment {
        object: Listed,
        is_marked: bool,
        size: u64,
        nattch: u64,
    },
}

impl Row {
    /// The row of the object of an identifier, by the state that IPC_STAT reports of it.
    pub fn new(id: u32, status: &Status) -> Row
        ensures { result ≡ row_of id status.now }
    {
        match *status {
            Status::Queue(queue) => Row::Queue {
                object: Listed::new(id, &queue.perm),
                cbytes: queue.cbytes,
                qnum: queue.qnum,
            },
            Status::Set(set) => Row::Set {
                object: Listed::new(id, &set.perm),
                nsems: set.nsems,
            },
            Status::Segment(segment) => Row::Segment {
                object: Listed::new(id, &segment.perm),
                is_marked: segment.is_marked,
                size: segment.size,
                nattch: segment.nattch,
            },
        }
    }
}

impl Listed {
    fn new(id: u32, perm: &Perm) -> Listed
        ensures { result ≡ listed_of id perm.now }
    {
        Listed {
            key: perm.key,
            id,
            uid: perm.uid,
            mode: perm.mode,
        }
    }
}
