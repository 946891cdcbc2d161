//! Calls and replies as C passes them: numbers in structs of fixed layout, and lists as slices. It is the project's own.
#![tactic(auto)]

mod objects;
mod opening;
mod operations;
mod replies;
mod requests;
mod rules;

pub use objects::RawObject;
pub use opening::{RawClient, RawLimits, creds_of};
pub use operations::Operation;
pub use replies::{RawReply, copy_lists, fits};
pub use requests::{BadRequest, Lists, RawRequest, RawSemOper};
pub use rules::rule_code;
