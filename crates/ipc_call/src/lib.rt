//! The plain types of the service: what a client asks, what it is answered, and the rules by which a call is
//! refused, with Linux's error numbers. Calls, answers and errors are those of POSIX and Linux. Rules, places,
//! turns, the journal, slots and the ranges of limits that Linux doesn't bound are the project's own.
#![tactic(auto)]

mod boxed;
mod calls;
mod error;
mod flags;
mod items;
mod limits;
mod listings;
mod perms;
mod replies;
mod rules;
mod sentences;
mod settings;
mod threads;

pub use boxed::Boxed;
pub use calls::{Call, Identity, Kind, SemOper};
pub use error::Errno;
pub use flags::{
    IPC_CREAT, IPC_EXCL, IPC_NOWAIT, MSG_EXCEPT, MSG_NOERROR, SEM_UNDO, SHM_RDONLY, creates,
    cuts_text, is_exclusive, is_read_only, may_wait, takes_other_types, undoes,
};
pub use items::Items;
pub use limits::{Limit, Limits};
pub use listings::{Listed, Row};
pub use perms::{Mode, Perm};
pub use replies::{
    Answer, Completion, JournalRow, Memory, Outcome, QueueStatus, Reply, SegmentStatus, SetStatus,
    Status, Waiting,
};
pub use rules::{Rule, errno};
pub use settings::{Get, GetSegment, GetSet, Receive, Sending, Settings};
pub use threads::Thread;
