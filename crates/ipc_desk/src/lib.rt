//! A namespace whose calls are methods: each gives the answers that its call can have, and no others. The answer to a call
//! that waited is kept for its client until it is taken, so none is lost and none comes twice. A program that uses a
//! namespace from one thread names this crate alone. It is the project's own.
#![tactic(auto)]

mod access;
mod answers;
mod asking;
mod desk;
pub mod laws;
mod messages;
mod processes;
mod segments;
mod semaphores;

pub use access::{Access, May};
pub use bitflags::Flags;
pub use call_values::{
    AttachFlags, Attached, Client, Ended, Failure, GetFlags, Message, Object, Owner, Progress,
    QueueId, Receive, ReceiveFlags, SegmentId, SemFlags, SemOp, SendFlags, SetId, User,
};
pub use desk::Desk;
pub use ipc_call::{
    Boxed, Errno, Identity, Items, Kind, Limits, Listed, Memory, Mode, Perm, QueueStatus, Row,
    Rule, SegmentStatus, SetStatus, Settings,
};
pub use ipc_creds::{Caps, Creds, GROUPS_MAX};
pub use ipc_perm::{Ground, Verdict};
pub use ipc_space::Space;
