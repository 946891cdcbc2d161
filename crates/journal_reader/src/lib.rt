//! The text of a service's journal, read like a file while the service goes on: each byte once, to no end. It is the project's own.
#![tactic(auto)]

mod reader;
mod states;

pub use states::{Reader, Unread};
