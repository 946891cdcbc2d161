// Why the program stopped.

use ipc_journal_text::Unread;
use std::alloc::AllocError;
use thiserror::Error;

/// Why the program stopped.
#[derive(Debug, Drop, Error)]
pub(crate) enum Fault {
    /// An allocation failed.
    #[error("no memory")]
    Memory,
    /// A write failed.
    #[error("write failed")]
    Write,
    /// The file or standard input can't be read.
    #[error("{0}: read failed")]
    Read(String),
    /// The script has more bytes than one may have, or something else stopped its run.
    #[error("{0}")]
    Run(ipcsh::Fault),
    /// The script makes no call.
    #[error("the script makes no call, so there is no journal")]
    NoCall,
    /// The text is no journal.
    #[error("{0}: {1}")]
    Unread(String, Unread),
}

impl From<AllocError> for Fault {
    fn from(_e: AllocError) -> Fault {
        Fault::Memory
    }
}

impl From<ipcsh::Fault> for Fault {
    fn from(fault: ipcsh::Fault) -> Fault {
        Fault::Run(fault)
    }
}
