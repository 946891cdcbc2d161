//! Which process a client is a thread of.

/// A client as a thread of a process.
#[derive(Clone, Copy, Debug, PartialEq, Eq)]
pub struct Thread {
    /// The serial number of its process, in the order in which processes come, from 0. It is never shown, and never comes again.
    pub process: u64,
    /// The pid of its process (getpid(2)), by which others name it.
    pub pid: u32,
    /// Whether the thread has ended; its process goes on while another one hasn't.
    pub has_ended: bool,
}
