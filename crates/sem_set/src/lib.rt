//! A semaphore set: the values of its semaphores and who set them last, whether the operations of a semop can all be
//! done on them, what these leave, and what the exit of a process does (semop(2), semctl(2)). Only `new` and `values`
//! can fail for want of memory; that a trial and an exit take the caller's semadj as a row by semaphore number is the project's own.
#![tactic(auto)]

mod exits;
mod set;
mod trials;

pub use set::{SemSet, Semaphore, is_value};
pub use trials::Trial;
