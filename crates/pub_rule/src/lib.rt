//! The rule of a publication list: what holds of its words, its slots and its clients' views between any two
//! steps.
//!
//! It follows flat combining (Hendler, Incze, Shavit, Tzafrir 2010): each client has a publication record of
//! its own, and the records of those that joined form a list from one head word. Seats and what they know, the layout
//! of the words, and that a call may be parked or refused for memory, are the project's own.
#![tactic(auto)]

pub mod laws;
mod rule;
mod served;
mod steps;
mod walk;
mod words;
mod work;
mod work_joins;
pub mod work_laws;
pub mod work_splits;
mod work_steps;

pub use rule::{Combining, Half, Listed};
pub use served::{Served, Slot};
pub use steps::{ExchangeHead, LoadHead, LoadNext, MergeToken, SplitClient, SplitToken, StoreNext};
pub use walk::{Role, View, Walk};
pub use words::{
    ANSWERED, FREE, PARKED, POSTED, TAKEN, head_word, lock_word, next_word, state_word, word_count,
};
pub use work::{Closed, Mark, Serving, Stage, Work};
pub use work_joins::{EnterCloser, MergeClient};
pub use work_steps::{
    AnswerCall, CollectReply, FetchSlot, GiveSlot, LookAt, LookOwn, ParkCall, PeekAt, PeekLock,
    PostCall, RefuseCall, ReleaseState, SeizeState, TakeParked, TakePosted,
};
