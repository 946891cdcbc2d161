//! Jobs of clients: each client does its own in a thread of its own, over one service (flat combining: Hendler,
//! Incze, Shavit, Tzafrir 2010). Jobs and gates are the project's own.
#![tactic(auto)]

mod counting;
mod gates;
mod threads;
mod working;

pub use counting::Counts;
pub use gates::{Gate, OpenGate};
pub use ipc_commands::Job;
pub use threads::{ThreadsEnd, run_threads};
