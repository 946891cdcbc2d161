//! What a service means: what it was opened with, and then its calls.
use ipc_call::{Call, Limits};
use ipc_creds::Creds;
use std::collections::LinkedList;

/// What a service keeps of its journal. Its history is all of its events in any case.
#[derive(Clone, Copy, Debug, PartialEq, Eq)]
pub enum Keeping {
    /// Each row, until the service is closed.
    Whole,
    /// Each row, until a client takes it.
    UntilTaken,
    /// No row: each is handed out to nobody as its event ends.
    Nothing,
}

/// An entry of a service's history. No value of it is made: it stands in proofs alone.
#[derive(Drop)]
pub enum Entry {
    /// The service was opened with these limits, for clients with these credentials; and what it keeps of its journal.
    Opened(Limits, LinkedList<Creds>, Keeping),
    /// A client called, at this time in seconds.
    Called(u32, u64, Call),
}
