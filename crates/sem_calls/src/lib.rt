//! Semaphore sets and their calls: the sets of a namespace by identifier and by key with what exit undoes, semget(2),
//! semop(2), the values of a set, what IPC_STAT tells of one, what IPC_SET leaves of it, and its removal (semctl(2)).
#![tactic(auto)]

mod calls;
mod exits;
mod operations;
mod set;
mod sets;

pub use operations::wanted_by;
pub use set::{Set, status};
pub use sets::Sets;
