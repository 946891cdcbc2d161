//! What calls take and give, with a type for each: clients, identifiers, flags, messages, operations, and why a call has no
//! answer. The numbers are those of `ipc_call`. It is the project's own.
#![tactic(auto)]

mod failure;
mod flags;
mod ids;
mod values;

pub use failure::Failure;
pub use flags::{AttachFlags, GetFlags, ReceiveFlags, SemFlags, SendFlags};
pub use ids::{Attached, Client, Object, QueueId, SegmentId, SetId};
pub use values::{Ended, Message, Owner, Progress, Receive, SemOp, User, sem_opers};
