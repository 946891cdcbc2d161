//! Shared memory segments and their calls: the segments of a namespace by identifier and by key with what is attached,
//! shmget(2), shmat and shmdt (shmop(2)) with reads and writes in the place of mapped memory, what IPC_STAT tells of a
//! segment, what IPC_SET leaves of it, its removal (shmctl(2)), and what an exit detaches.
#![tactic(auto)]

mod attaching;
mod bytes;
mod gets;
mod segment;
mod segments;

pub use segment::{Segment, status};
pub use segments::Segments;
