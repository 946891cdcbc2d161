//! The System V IPC objects and the processes of a running machine, as the files of proc(5) tell them, and who may do what
//! to which of them. What is asked of an object, the order of the rows and their text are the project's own.
#![tactic(auto)]

mod fields;
mod lines;
mod objects;
mod orphans;
mod processes;
mod status;
mod sysvipc;
mod table;
mod text;
mod why;

pub use fields::Field;
pub use lines::{BadLine, LineError};
pub use objects::{Object, Use};
pub use orphans::{is_unattached, print_orphan, print_remover, users_are_gone};
pub use processes::Process;
pub use status::process_of;
pub use sysvipc::{file_of, read_objects};
pub use table::{Entry, Row, Told, tabulate, tell};
pub use text::{print_object, print_table};
pub use why::print_why;
