//! A publication list: clients join it without waiting, and each walks the records of those that joined.
//!
//! It follows flat combining (Hendler, Incze, Shavit, Tzafrir 2010) over the rule of `pub_rule`. No call
//! waits for another thread, and only `List::new` can fail for want of memory. Of the others `combine_with`
//! allocates where the state does as it serves a call. Numbers of clients and their bound, calls that are parked or
//! refused for memory, what clients tell one another, gates and the closing of a list are the project's own.
#![tactic(auto)]

mod asking;
mod closing;
mod combining;
mod fresh;
mod joined;
mod joining;
mod list;
mod making;
mod passing;
mod records;
mod sleeping;
mod telling;
mod walking;

pub use asking::Answer;
pub use closing::{Closing, End};
pub use combining::Took;
pub use fresh::Fresh;
pub use joined::Joined;
pub use list::List;
pub use passing::{OpenGate, PassGate, Serves};
pub use records::WordState;
