//! Clients of one service in any threads, each of which holds the service that it is a client of. So the functions of a
//! program that take and hand back clients need no clause on which service they belong to. It is the project's own.
#![tactic(auto)]

mod calls;
mod opening;
mod states;
mod waiting;

pub use calls::Looked;
pub use ipc_combiner::{Keeping, Pass, Seen, Untaken};
pub use opening::{open, open_keeping};
pub use states::{Member, Posted};
