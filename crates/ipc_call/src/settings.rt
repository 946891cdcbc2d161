//! What calls ask for: a get, msgsnd, msgrcv and IPC_SET.

/// What IPC_SET sets of an object (msgctl(2), semctl(2), shmctl(2)).
#[derive(Clone, Copy, Debug)]
pub struct Settings {
    /// The owner.
    pub uid: u32,
    /// The owner's group.
    pub gid: u32,
    /// The permission bits: the low nine count.
    pub mode: u32,
    /// The `msg_qbytes` of a queue, in bytes; it stays where it isn't given (msgctl(2) always sets it).
    pub qbytes: Option<u64>,
}

/// What msgget asks for (msgget(2)).
#[derive(Clone, Copy, Debug)]
pub struct Get {
    /// The key; 0 is `IPC_PRIVATE`.
    pub key: u32,
    /// `IPC_CREAT` and `IPC_EXCL`, and in the low nine bits the mode of a new object, or the rights asked for.
    pub flags: u32,
}

/// What semget asks for (semget(2)).
#[derive(Clone, Copy, Debug)]
pub struct GetSet {
    /// The key and the flags.
    pub get: Get,
    /// How many semaphores.
    pub nsems: u32,
}

/// What shmget asks for (shmget(2)).
#[derive(Clone, Copy, Debug)]
pub struct GetSegment {
    /// The key and the flags.
    pub get: Get,
    /// The size in bytes.
    pub size: u64,
}

/// What msgsnd asks of a queue, but for the text (msgop(2)).
#[derive(Clone, Copy, Debug)]
pub struct Sending {
    /// The type, 1 or more.
    pub mtype: i64,
    /// The length of the text in bytes.
    pub len: usize,
    /// `IPC_NOWAIT`.
    pub flags: u32,
}

/// What msgrcv asks of a queue (msgop(2)).
#[derive(Clone, Copy, Debug)]
pub struct Receive {
    /// The longest text, in bytes.
    pub size: u64,
    /// Which message: 0 for the first, or of a type.
    pub msgtyp: i64,
    /// `MSG_NOERROR`, `MSG_EXCEPT` and `IPC_NOWAIT`.
    pub flags: u32,
}
