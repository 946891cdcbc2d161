//! A namespace of System V IPC objects that serves its clients' calls one at a time, and the journal
//! of what it was asked and what it answered, which can be replayed. A program that uses a namespace names this
//! crate alone: the types of calls, replies and credentials are re-exported here.
#![tactic(auto)]

mod comparing;
mod copying;
pub mod laws;
mod ledger;
mod looking;
mod opening;
mod replaying;
mod space;

pub use bitflags::Flags;
pub use comparing::{Compared, compare};
pub use ipc_call::{
    Answer, Boxed, Call, Errno, IPC_CREAT, IPC_EXCL, IPC_NOWAIT, Identity, Items, JournalRow, Kind,
    Limits, Listed, MSG_EXCEPT, MSG_NOERROR, Memory, Mode, Outcome, Perm, QueueStatus, Reply, Row,
    Rule, SEM_UNDO, SHM_RDONLY, SegmentStatus, SemOper, SetStatus, Status, errno,
};
pub use ipc_creds::{Caps, Creds, GROUPS_MAX};
pub use ipc_namespace::Namespace;
pub use ipc_parked::Arrival;
pub use ledger::{Effects, Ledger};
pub use replaying::{Replayed, replay};
pub use shm_seg::Attachment;
pub use space::Space;
