//! The state of a namespace of System V IPC objects, and how one event changes it: a call is decided, then
//! refused, granted or made to wait, and the waiting calls end that it lets go on or ends.
#![tactic(auto)]

mod becoming;
mod beginning;
mod callers;
mod cancelling;
mod control_calls;
mod listings;
mod looking;
mod message_calls;
mod namespace;
mod owed;
mod process_calls;
mod reserving;
mod segment_calls;
mod semaphore_calls;
mod several;
mod signals;
mod touching;

pub use namespace::Namespace;
