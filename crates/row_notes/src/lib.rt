//! Rows of a run with notes between them, each above or below its row.
#![tactic(auto)]

mod merging;
mod notes;

pub use merging::merge;
pub use notes::{Head, Notes};
