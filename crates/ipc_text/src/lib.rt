//! The text of a script above its words: directives, the calls that words make, and the rows that are printed.
//!
//! The text of scripts and rows is the project's own; the words of calls and of rules follow the names of
//! their man pages.
#![tactic(auto)]

mod calls;
mod commands;
mod grammar;
mod lists;
mod lives;
mod reasons;
mod rows;
mod segments;
mod sets;
mod settings;
mod texts;

pub use calls::{call_of, kind_named};
pub use commands::{Command, Parts, command_of};
pub use grammar::{client_of, clock_of, limit_of};
pub use ipc_commands::Part;
pub use ipc_words::{Line, Name, first_two, four_words, is_name, is_plain, one_word, split_word};
pub use lists::{Item, items_of, two_numbers};
pub use lives::{Naming, naming_of};
pub use reasons::Reason;
pub use rows::{print_bad, print_object, print_reply, print_waits};
pub use settings::limit_named;
