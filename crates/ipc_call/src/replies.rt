//! What a call is answered, and the rows of the journal.

use crate::boxed::Boxed;
use crate::calls::Call;
use crate::items::Items;
use crate::listings::Row;
use crate::perms::Perm;
use crate::rules::Rule;
use std::alloc::AllocError;

/// An allocation failed (ENOMEM). What answers it has changed nothing.
pub type Memory = AllocError;

/// The state of a queue (msqid_ds of msgctl(2)).
#[derive(Clone, Copy, Debug, PartialEq, Eq)]
pub struct QueueStatus {
    /// Its ipc_perm.
    pub perm: Perm,
    /// The bytes of the texts of all messages.
    pub cbytes: u64,
    /// How many messages there are.
    pub qnum: u64,
    /// The most bytes that the queue may hold.
    pub qbytes: u64,
    /// The process that sent last, the number of its client plus 1, and 0 where none did.
    pub lspid: u32,
    /// The process that received last.
    pub lrpid: u32,
    /// When a client sent last, in seconds, 0 where none did.
    pub stime: u64,
    /// When a client received last.
    pub rtime: u64,
    /// When the queue was created or set last.
    pub ctime: u64,
}

/// The state of a semaphore set (semid_ds of semctl(2)).
#[derive(Clone, Copy, Debug, PartialEq, Eq)]
pub struct SetStatus {
    /// Its ipc_perm.
    pub perm: Perm,
    /// How many semaphores it has.
    pub nsems: u64,
    /// When a semop was granted last, in seconds, 0 where none was.
    pub otime: u64,
    /// When the set was created, its owner set or a value set by SETVAL or SETALL last.
    pub ctime: u64,
}

/// The state of a segment (shmid_ds of shmctl(2)).
#[derive(Clone, Copy, Debug, PartialEq, Eq)]
pub struct SegmentStatus {
    /// Its ipc_perm.
    pub perm: Perm,
    /// Whether it was removed and goes with its last attachment (SHM_DEST).
    pub is_marked: bool,
    /// Its size in bytes (shm_segsz).
    pub size: u64,
    /// How many attachments are to it.
    pub nattch: u64,
    /// The process that created it, the number of its client plus 1.
    pub cpid: u32,
    /// The process that attached or detached it last, 0 where none did.
    pub lpid: u32,
    /// When a client attached it last, in seconds, 0 where none did.
    pub atime: u64,
    /// When a client detached it last.
    pub dtime: u64,
    /// When the segment was created or set last.
    pub ctime: u64,
}

/// The state of an object, by its kind (msgctl(2), semctl(2), shmctl(2)).
#[derive(Clone, Copy, Debug, PartialEq, Eq)]
pub enum Status {
    /// Of a message queue.
    Queue(QueueStatus),
    /// Of a semaphore set.
    Set(SetStatus),
    /// Of a shared memory segment.
    Segment(SegmentStatus),
}

/// What a granted call returns (msgget(2), msgop(2), msgctl(2), semget(2), semctl(2), shmop(2)).
#[derive(Debug, Drop, PartialEq)]
pub enum Answer {
    /// The identifier of an object, at most 2147483647.
    Id(u32),
    /// Nothing: the call returns 0.
    Done,
    /// The message that was received: its type, at least 1, and its text.
    Message { mtype: i64, text: Items<u8> },
    /// The state of an object.
    Status(Boxed<Status>),
    /// What a semaphore of a set has.
    Value(u32),
    /// The values of all semaphores of a set.
    Values(Items<u16>),
    /// The number under which the client has attached the segment, below 4096.
    Attached(u32),
    /// The bytes that were read.
    Bytes(Items<u8>),
    /// The objects that were listed (ipcs(1)).
    Rows(Items<Row>),
}

/// How a call ended: granted with an answer, or refused by a rule.
pub type Outcome = Result<Answer, Rule>;

/// What the client of a call receives.
#[derive(Debug, Drop, PartialEq)]
pub enum Reply {
    /// The call was entered in the journal. `place` is the place, from 1, of the event that ended it;
    /// `turn` is 0 for that event's own call, and then counts the waiting calls that it ended.
    Entered {
        place: u64,
        turn: u32,
        outcome: Outcome,
    },
    /// An allocation failed, and nothing has changed.
    Memory,
}

/// A call that waits.
#[derive(Debug, Drop, PartialEq)]
pub struct Waiting {
    /// The client that waits, counted from 0.
    pub client: u32,
    /// Its call.
    pub call: Call,
    /// The second of the clock at which it ends, where it is one that waits no longer (semtimedop of semop(2)).
    pub deadline: Option<u64>,
}

/// A waiting call that has ended, with its client.
#[derive(Debug, Drop, PartialEq)]
pub struct Completion {
    /// The client that waited, counted from 0.
    pub client: u32,
    /// How its call ended.
    pub outcome: Outcome,
}

/// A row of the journal. The rows of one event stand together: `Called`, then an `Answered` for each of its
/// replies in order of turn.
#[derive(Debug, Drop, PartialEq)]
pub enum JournalRow {
    /// A client, counted from 0, called at a time in seconds.
    Called {
        client: u32,
        now: u64,
        call: Call,
    },
    /// A client was answered by the event at this place, with this turn. `rule` is None where the call was
    /// granted.
    Answered {
        client: u32,
        place: u64,
        turn: u32,
        rule: Option<Rule>,
    },
}
