//! What each client is a thread of: the threads of a process by its pid, and the serial number of the process that comes
//! next. That a client is one thread after another is the project's own.
#![tactic(auto)]

mod rows;
mod table;
mod threads;

pub use table::ProcessTable;
