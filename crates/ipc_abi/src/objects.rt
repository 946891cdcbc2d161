//! What IPC_STAT and a listing tell of an object, in numbers.

ghost use Rattle.std.specs.Prelude.{◌≡◌};
ghost use Rattle.ipc_abi.specs.Objects.{object_of_row, object_of_status, with_listed, with_perm};
ghost use Rattle.ipc_abi.specs.Objects.{of_queue, of_segment, of_set};

use ipc_call::{Listed, Perm, QueueStatus, Row, SegmentStatus, SetStatus, Status};

/// An object, in numbers: what msqid_ds, semid_ds or shmid_ds have of it. A number that its kind doesn't have, or that a
/// listing doesn't show, is 0.
#[repr(C)]
#[derive(Clone, Copy, Debug, Default, PartialEq, Eq)]
pub struct RawObject {
    /// The bytes of a queue's texts, or a segment's size.
    pub bytes: u64,
    /// A queue's messages, a set's semaphores, or a segment's attachments.
    pub count: u64,
    /// The most bytes that a queue may hold.
    pub qbytes: u64,
    /// When a client sent last, in seconds.
    pub stime: u64,
    /// When a client received last.
    pub rtime: u64,
    /// When a semop was granted last.
    pub otime: u64,
    /// When a client attached last.
    pub atime: u64,
    /// When a client detached last.
    pub dtime: u64,
    /// When the object was created or set last.
    pub ctime: u64,
    /// The code of its kind: 0 for a queue, 1 for a set, 2 for a segment.
    pub kind: u32,
    /// Its identifier. IPC_STAT doesn't repeat it.
    pub id: u32,
    /// Its key.
    pub key: u32,
    /// Its owner.
    pub uid: u32,
    /// The owner's group.
    pub gid: u32,
    /// Its creator.
    pub cuid: u32,
    /// The creator's group.
    pub cgid: u32,
    /// Its permission bits.
    pub mode: u32,
    /// The process that sent last.
    pub lspid: u32,
    /// The process that received last.
    pub lrpid: u32,
    /// The process that created a segment.
    pub cpid: u32,
    /// The process that attached or detached last.
    pub lpid: u32,
    /// 1 where a segment goes with its last attachment (SHM_DEST), 0 otherwise.
    pub marked: u32,
}

const BLANK: RawObject = RawObject {
    bytes: 0,
    count: 0,
    qbytes: 0,
    stime: 0,
    rtime: 0,
    otime: 0,
    atime: 0,
    dtime: 0,
    ctime: 0,
    kind: 0,
    id: 0,
    key: 0,
    uid: 0,
    gid: 0,
    cuid: 0,
    cgid: 0,
    mode: 0,
    lspid: 0,
    lrpid: 0,
    cpid: 0,
    lpid: 0,
    marked: 0,
};

impl RawObject {
    /// What IPC_STAT tells.
    pub(crate) fn of_status(status: &Status) -> RawObject
        ensures { result ≡ object_of_status status.now }
    {
        let (object, perm) = match status {
            Status::Queue(queue) => (RawObject::of_queue(queue), &queue.perm),
            Status::Set(set) => (RawObject::of_set(set), &set.perm),
            Status::Segment(segment) => (RawObject::of_segment(segment), &segment.perm),
        };
        object.with_perm(perm)
    }

    fn of_queue(queue: &QueueStatus) -> RawObject
        ensures { result ≡ of_queue queue.now }
    {
        RawObject {
            kind: 0,
            bytes: queue.cbytes,
            count: queue.qnum,
            qbytes: queue.qbytes,
            lspid: queue.lspid,
            lrpid: queue.lrpid,
            stime: queue.stime,
            rtime: queue.rtime,
            ctime: queue.ctime,
            ..BLANK
        }
    }

    fn of_set(set: &SetStatus) -> RawObject
        ensures { result ≡ of_set set.now }
    {
        RawObject {
            kind: 1,
            count: set.nsems,
            otime: set.otime,
            ctime: set.ctime,
            ..BLANK
        }
    }

    fn of_segment(segment: &SegmentStatus) -> RawObject
        ensures { result ≡ of_segment segment.now }
    {
        RawObject {
            kind: 2,
            bytes: segment.size,
            count: segment.nattch,
            marked: u32::from(segment.is_marked),
            cpid: segment.cpid,
            lpid: segment.lpid,
            atime: segment.atime,
            dtime: segment.dtime,
            ctime: segment.ctime,
            ..BLANK
        }
    }

    fn with_perm(self, perm: &Perm) -> RawObject
        ensures { result ≡ with_perm perm.now self }
    {
        RawObject {
            key: perm.key,
            uid: perm.uid,
            gid: perm.gid,
            cuid: perm.cuid,
            cgid: perm.cgid,
            mode: u32::from(perm.mode.bits()),
            ..self
        }
    }

    /// What a listing shows.
    pub(crate) fn of_row(row: &Row) -> RawObject
        ensures { result ≡ object_of_row row.now }
    {
        match *row {
            Row::Queue {
                object,
                cbytes,
                qnum,
            } => RawObject {
                kind: 0,
                bytes: cbytes,
                count: qnum,
                ..RawObject::listed(object)
            },
            Row::Set { object, nsems } => RawObject {
                kind: 1,
                count: nsems,
                ..RawObject::listed(object)
            },
            Row::Segment {
                object,
                is_marked,
                size,
                nattch,
            } => RawObject {
                kind: 2,
                bytes: size,
                count: nattch,
                marked: u32::from(is_marked),
                ..RawObject::listed(object)
            },
        }
    }

    fn listed(object: Listed) -> RawObject
        ensures { result ≡ with_listed object }
    {
        RawObject {
            key: object.key,
            id: object.id,
            uid: object.uid,
            mode: u32::from(object.mode.bits()),
            ..BLANK
        }
    }
}
