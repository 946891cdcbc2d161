//! `ipcsh threads`: reads a script to its end, and makes the calls of each client in a thread of its own. What it prints
//! is the project's own.
#![tactic(auto)]

mod rows;
mod running;

pub use running::{threads, threads_with};
