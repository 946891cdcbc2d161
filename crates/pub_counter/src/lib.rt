//! Two states that a publication list can serve, to test and to measure it: a counter, and one whose calls wait. That
//! one state serves the calls of all clients follows flat combining; all else is the project's own.
#![tactic(auto)]

mod counter;
pub mod service;
mod swap;
pub mod swapping;

pub use counter::{Counter, Turn};
pub use swap::Swap;
