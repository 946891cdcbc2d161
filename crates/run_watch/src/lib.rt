//! What a run of a script was, for its picture; and what it leaves of an object, with those who may call there.
#![tactic(auto)]

mod callers;
mod changes;
mod lines;
mod watcher;

pub use callers::{Left, left_by};
pub use watcher::watch;
