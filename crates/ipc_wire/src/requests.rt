//! What a process asks of the server.

use ipc_call::{Items, Kind, SemOper};

/// A message of a process: what it asks, under a number by which the reply is known.
#[derive(Drop)]
pub struct Message {
    pub seq: u32,
    pub request: Request,
}

/// What a process asks.
#[derive(Drop)]
pub enum Request {
    /// The first message of a connection: the version of the layout, and the token of a fork or 0.
    Hello { version: u32, token: u64 },
    /// Ends the wait of the request with this number.
    Cancel { seq: u32 },
    /// Announces a child of the process.
    Fork,
    /// A call of the namespace.
    Calls(Ask),
    /// A look at the namespace, which changes nothing.
    Looks(Look),
}

/// A call as a process asks it. It is one of `Call`, whose variants say what their fields mean, but for identifiers: each is
/// a word of 64 bits here, which may be anything.
#[derive(Drop)]
pub enum Ask {
    MsgGet {
        key: u32,
        flags: u32,
    },
    MsgSnd {
        id: u64,
        mtype: i64,
        text: Items<u8>,
        flags: u32,
    },
    MsgRcv {
        id: u64,
        size: u64,
        msgtyp: i64,
        flags: u32,
    },
    SemGet {
        key: u32,
        nsems: u32,
        flags: u32,
    },
    SemOp {
        id: u64,
        opers: Items<SemOper>,
    },
    /// It waits no longer than `timeout` microseconds. Without a timeout it is what `SemOp` is.
    SemTimedOp {
        id: u64,
        opers: Items<SemOper>,
        timeout: Option<u64>,
    },
    GetVal {
        id: u64,
        num: u32,
    },
    GetPid {
        id: u64,
        num: u32,
    },
    GetNcnt {
        id: u64,
        num: u32,
    },
    GetZcnt {
        id: u64,
        num: u32,
    },
    GetAll {
        id: u64,
    },
    SetVal {
        id: u64,
        num: u32,
        value: i32,
    },
    /// Each value is 0 to 65535.
    SetAll {
        id: u64,
        values: Items<i32>,
    },
    ShmGet {
        key: u32,
        size: u64,
        flags: u32,
    },
    ShmAt {
        id: u64,
        flags: u32,
    },
    ShmDt {
        att: u32,
    },
    IpcStat {
        kind: Kind,
        id: u64,
    },
    IpcSet {
        kind: Kind,
        id: u64,
        uid: u32,
        gid: u32,
        mode: u32,
        qbytes: Option<u64>,
    },
    IpcRmid {
        kind: Kind,
        id: u64,
    },
}

/// A look at the namespace.
#[derive(Clone, Copy, Debug, PartialEq, Eq)]
pub enum Look {
    /// How many semaphores a set has.
    Nsems { id: u64 },
    /// The object in a slot of a kind, counted from 0. `any` asks for no right to read it (IPC_STAT and the `_ANY` forms of
    /// msgctl(2), semctl(2) and shmctl(2)).
    At { kind: Kind, slot: u32, any: bool },
    /// The totals of a kind.
    Totals { kind: Kind },
}
