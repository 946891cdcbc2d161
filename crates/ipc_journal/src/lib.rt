//! The journal: the rows of the events of a namespace, oldest first. It only grows, and the room for the rows of an
//! event is made before the event changes anything.
#![tactic(auto)]

mod given;
mod journal;

pub use journal::Journal;
