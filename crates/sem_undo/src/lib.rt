//! What exit undoes of the operations of semop: the semadj of each client at each semaphore (semop(2), SEM_UNDO). Only
//! `ensure_row` can fail for want of memory; that a client has a row of semadj for each set is the project's own.
#![tactic(auto)]

mod rows;
mod undo;

pub use undo::Undo;
