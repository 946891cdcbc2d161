// The rows that a journal handed out.
ghost use Rattle.std.specs.Prelude.{◌≡◌, List};
ghost use Rattle.ipc_call.specs.declared.replies.JournalRow.{JournalRow};
ghost use base.Fml.{ftrue};

use crate::journal::Journal;
use std::marker::{Model, PhantomData, Send, Sync};

/// The rows of a journal at some time. It has no bytes: they are known in proofs alone.
pub(crate) struct Given {
    marker: PhantomData<u64>,
    pub ghost rows: { List JournalRow },
}

impl Model for Given {
    ghost also_owns = { λ _. ftrue };
}

impl Given {
    /// The rows that the journal has.
    pub(crate) fn of(journal: &Journal) -> Given
        ensures { result.rows ≡ journal.now.rows }
    {
        let _ = journal;
        Given {
            marker: PhantomData,
        }
    }
}

// It is rows in proofs and no bytes at run time, so that any thread may have it: proved, in proofs/given/Given/TheSendSync.
unsafe impl Send for Given {}

unsafe impl Sync for Given {}

impl Drop for Given {
    fn drop(self) {
        let Self { marker: _ } = self;
    }
}
