//! The objects of one kind, whatever they hold: found by identifier and by key, with their permissions and
//! the time of their last change. It is a table for queues, semaphore sets and segments alike; that one
//! table serves all three is as in Linux's ipc/util.c.
#![tactic(auto)]

mod object;
mod objects;

pub use object::{Object, Owner};
pub use objects::Objects;
