//! The namespace served through a publication list: any client that finds work combines, and serves the posted
//! calls of all (flat combining: Hendler, Incze, Shavit, Tzafrir 2010).
#![tactic(auto)]

mod calls;
mod closing;
mod entries;
pub mod laws;
mod opening;
mod parts;
mod serving;
mod shared;
mod sleeping;
mod states;
mod telling;
mod waiting;

pub use calls::{Pass, Polled, Seen};
pub use closing::Client;
pub use entries::{Entry, Keeping};
pub use parts::Untaken;
pub use pub_list::{OpenGate, PassGate};
pub use shared::Shared;
pub use states::{Idle, InFlight, Service, Unjoined};
