//! Texts that explain the bad lines of a script: for each its number, the argument, what was expected, and a way out; and
//! warnings of modes and flags that lack their leading 0.
//!
//! They are for people, and the project's own: what a line is and does is said by the rows alone.
#![tactic(auto)]

mod bytes;
mod calls;
mod clients;
mod commands;
mod directives;
mod hints;
mod lost;

pub use hints::Hints;
