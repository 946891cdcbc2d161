//! A journal as text, with all that replays it: the limits and the clients' credentials at the start, and a line for each
//! row. The text is the project's own; calls are in the words of the script language.
#![tactic(auto)]

mod calls;
mod credentials;
mod errors;
mod heads;
pub mod laws;
mod printing;
mod reading;
mod rows;
mod rules;
mod writing;

pub use calls::print_call;
pub use errors::{Unread, Wanted};
pub use printing::{head_lines, print_journal, print_row, print_rows};
pub use reading::{Recorded, read_journal};
pub use writing::write_journal;
