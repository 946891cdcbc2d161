//! The server of a namespace that processes share: what it does with each thing that a loop over sockets sees. It makes no
//! system call. The messages, and how processes come and go, are the project's own.
#![tactic(auto)]

mod connecting;
mod ending;
mod entering;
mod events;
mod forking;
pub mod laws;
mod looks;
mod making;
mod messages;
mod opening;
mod outputs;
mod peers;
mod queue;
mod searching;
mod server;
mod taking;

pub use events::NotReady;
pub use outputs::{Closing, Output, Pass};
pub use peers::{Bounds, Conn, Peer, Role, Sender, Supply};
pub use server::Server;
