//! The words of ipcs(1), ipcrm(1) and ipcmk(1), as calls of the service.
//!
//! The commands and their options are those of util-linux. The parts of a command are the project's own.
#![tactic(auto)]

mod jobs;
mod options;
mod parts;
mod programs;
mod removals;
mod requests;
mod tools;
mod values;

pub use jobs::Job;
pub use parts::{Part, parts_of};
pub use programs::{Program, program_of};
pub use removals::{answered_id, get_of};
pub use tools::Tool;
