//! What would allow a caller what it is denied: a change of the object, of the caller or of the call, which is made and decided again by
//! the same decision. Which changes are tried is the project's own.
#![tactic(auto)]

mod changes;
mod tries;

pub use changes::{Change, changes_for, changes_to_control};
