//! The script tool of the service: reads a script of calls, makes them in one namespace, and prints a
//! row for each reply; or reads the script to its end, and makes none of its calls.
#![tactic(auto)]

mod commands;
mod input;
mod listeners;
mod output;
mod pieces;
mod readings;
mod runs;
mod scripts;
mod session;
mod texts;

pub use listeners::Listener;
pub use output::write_bytes;
pub use runs::{Fault, Summary, run, run_with};
pub use scripts::{Script, read_script, read_script_with};
pub use texts::{Ended, run_text};
