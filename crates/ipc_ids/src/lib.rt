//! Identifiers and keys: tables of slots that never name two objects alike, and tables of keys. Neither scans
//! what it holds, and only `try_insert` and `bind` can fail for want of memory. Slots, their sequence numbers, and so the
//! numbers that identifiers are, are the project's own.
#![tactic(auto)]

mod keys;
mod slots;

pub use keys::Keys;
pub use slots::{InsertFault, Slots, id_of};
