// What a client is to do.
use crate::parts::Part;
use ipc_call::Items;

/// One job of a client: the calls of one line of a script.
#[derive(Debug, Drop)]
pub struct Job {
    /// The time that is passed with each of its calls, in seconds.
    pub now: u64,
    /// Its calls, in their order.
    pub command: Items<Part>,
}
