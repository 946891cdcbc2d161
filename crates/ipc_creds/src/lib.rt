//! The credentials of a client: its effective, real and saved user and group, its supplementary groups and its
//! capabilities. That there are at most 32 groups is the project's own.
#![tactic(auto)]

mod caps;
mod creds;

pub use caps::Caps;
pub use creds::{Creds, GROUPS_MAX, copies};
