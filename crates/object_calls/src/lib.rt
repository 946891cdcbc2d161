//! What the calls on objects of any kind have in common: who calls, the checks on an object that a get finds, the new
//! object that one makes (msgget(2), semget(2), shmget(2)), and the owner that IPC_SET sets.
#![tactic(auto)]

mod caller;
mod gets;
mod settings;

pub use caller::Caller;
pub use gets::{may_open, new_object};
pub use settings::owner_of;
