//! What names a client, an object and an attachment: numbers that can't be taken for one another.

ghost use Rattle.std.specs.Prelude.{◌≡◌};
ghost use Rattle.call_values.specs.Objects.{id_of, kind_of};

use ipc_call::Kind;
use std::fmt;

/// A client, by its number from 0 in the order of the credentials.
#[derive(Clone, Copy, Debug, PartialEq, Eq)]
pub struct Client(pub u32);

/// The identifier of a message queue (msgget(2)), at most 2147483647.
#[derive(Clone, Copy, Debug, PartialEq, Eq)]
pub struct QueueId(pub u32);

/// The identifier of a semaphore set (semget(2)), at most 2147483647.
#[derive(Clone, Copy, Debug, PartialEq, Eq)]
pub struct SetId(pub u32);

/// The identifier of a shared memory segment (shmget(2)), at most 2147483647.
#[derive(Clone, Copy, Debug, PartialEq, Eq)]
pub struct SegmentId(pub u32);

/// The number under which a client has attached a segment, below 4096. It is the client's own, and stands for the address
/// of shmat(2).
#[derive(Clone, Copy, Debug, PartialEq, Eq)]
pub struct Attached(pub u32);

/// An object of any kind.
#[derive(Clone, Copy, Debug, PartialEq, Eq)]
pub enum Object {
    /// A message queue.
    Queue(QueueId),
    /// A semaphore set.
    Set(SetId),
    /// A shared memory segment.
    Segment(SegmentId),
}

impl Object {
    /// Its kind.
    pub fn kind(self) -> Kind
        ensures { result ≡ kind_of self }
    {
        match self {
            Object::Queue(_) => Kind::Queue,
            Object::Set(_) => Kind::Sems,
            Object::Segment(_) => Kind::Segment,
        }
    }

    /// Its identifier.
    pub fn id(self) -> u32
        ensures { result ≡ id_of self }
    {
        match self {
            Object::Queue(QueueId(id)) | Object::Set(SetId(id)) | Object::Segment(SegmentId(id)) =>
                id,
        }
    }
}

impl fmt::Display for Client {
    fn fmt<W: fmt::Write>(&self, f: &mut fmt::Formatter<W>) -> fmt::Result {
        self.0.fmt(f)
    }
}

impl fmt::Display for QueueId {
    fn fmt<W: fmt::Write>(&self, f: &mut fmt::Formatter<W>) -> fmt::Result {
        self.0.fmt(f)
    }
}

impl fmt::Display for SetId {
    fn fmt<W: fmt::Write>(&self, f: &mut fmt::Formatter<W>) -> fmt::Result {
        self.0.fmt(f)
    }
}

impl fmt::Display for SegmentId {
    fn fmt<W: fmt::Write>(&self, f: &mut fmt::Formatter<W>) -> fmt::Result {
        self.0.fmt(f)
    }
}

impl fmt::Display for Attached {
    fn fmt<W: fmt::Write>(&self, f: &mut fmt::Formatter<W>) -> fmt::Result {
        self.0.fmt(f)
    }
}
