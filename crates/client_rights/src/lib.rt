//! What each client of a run may do to one object, and why. The table is the project's own.
#![tactic(auto)]

mod cells;
mod rights;
mod table;

pub use rights::{Client, Rights, all_rights, rights_of};
pub use table::print_rights;
