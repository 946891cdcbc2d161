//! What the server gives for an event.

use ipc_wire::Told;

/// What is to be done for an event. What one event gives is done in order.
#[derive(Drop)]
pub enum Output {
    /// The reply to a request of a connection, with a descriptor or none.
    Reply {
        conn: u32,
        seq: u32,
        told: Told,
        pass: Pass,
    },
    /// The connection is closed. It is gone already.
    Close {
        conn: u32,
        why: Closing,
    },
    /// The memory of a segment is made, of this size in bytes.
    Make {
        segment: u32,
        size: u64,
    },
    /// That memory goes; what is mapped of it stays.
    Drop {
        segment: u32,
    },
    /// Whether the process has memory of segments mapped is to be found out, and told by `Server::mapped`.
    Ask {
        pid: u32,
    },
}

/// The descriptor that goes with a reply.
#[derive(Clone, Copy, Debug, PartialEq, Eq)]
pub enum Pass {
    Nothing,
    /// That of a segment's memory.
    Memory { segment: u32, is_writable: bool },
    /// One whose other end tells, when nobody holds it any more, that the fork of this token is lost (`Server::fork_lost`).
    Fork { token: u64 },
}

/// Why a connection is closed.
#[derive(Clone, Copy, Debug, PartialEq, Eq)]
pub enum Closing {
    /// A connection of this number is there already, or there may be none of so high a number.
    BadNumber,
    /// The pid is none that a process can have.
    BadPid,
    /// There are more supplementary groups than 32.
    TooManyGroups,
    /// There are as many connections as there may be that have said nothing.
    TooManySilent,
    /// The user has as many connections as one may have.
    TooManyOfUser,
    /// The user has as many connections as one may have that have said nothing.
    TooManySilentOfUser,
    /// Another process, or another real user, sent a message.
    AnotherSender,
    /// The bytes of a message are no request.
    NoRequest,
    /// An allocation failed while a request was read.
    Memory,
    /// The first message is not `Request::Hello`, or a later one is.
    OutOfTurn,
    /// The layout of messages has another version.
    BadVersion,
    /// No announced fork has the token, or the process is known already.
    BadToken,
    /// A request came while another one waits.
    TwoRequests,
    /// The process has ended.
    Ended,
}
