//! An object of any kind, and who owns it.

use ipc_perm::{Mode, Perm};

/// What each object has, beside what only its kind has.
#[derive(Debug, Drop)]
pub struct Object<T> {
    /// Its ipc_perm, with its key.
    pub perm: Perm,
    /// When it was created or last set by IPC_SET, in seconds.
    pub change_time: u64,
    /// What its kind has: messages, semaphores or bytes.
    pub contents: T,
}

/// What IPC_SET sets of an object of any kind (msgctl(2), semctl(2), shmctl(2)).
#[derive(Clone, Copy, Debug, PartialEq, Eq)]
pub struct Owner {
    /// The new owner.
    pub uid: u32,
    /// The new owner's group.
    pub gid: u32,
    /// The new permission bits.
    pub mode: Mode,
}
