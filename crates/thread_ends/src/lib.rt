//! What a call leaves that ends threads, an exit, a kill or an exec: the threads that go on or end, what the end of a process
//! undoes, and what it detaches. It is looked up in the namespace before the event.
//!
//! The words are for people, and the project's own: what a call is answered is said by its row alone.
#![tactic(auto)]

mod ends;

pub use ends::{Detached, Ending, Left, Undone, left_by, print_left};
