//! What is true of every history of a service. A law is a function that does nothing: what it ensures is the law.

ghost use Rattle.std.specs.Prelude.{◌≡◌, ◌+◌, ◌++◌, ℕ, List, drop, length};
ghost use Rattle.ipc_call.specs.declared.replies.JournalRow.{JournalRow as Row};
ghost use Rattle.pub_rule.specs.Work.{GoesOn};
ghost use Rattle.ipc_combiner.specs.declared.entries.Entry.{Entry as EntryOf};
ghost use Rattle.ipc_combiner.specs.Parts.{journal_of};

/// Rows that were taken from some row on, and then rows from where those ended, are together the rows from the first of
/// them on: nothing is lost between two parts of a journal, and nothing comes twice.
#[tactic(auto, using(crate::proofs::Taking::parts_join))]
pub fn parts_join_up()
    ensures { (h k : List EntryOf) → GoesOn h k → (from : ℕ) (part next : List Row) → part ≡ drop from (journal_of h)
        → next ≡ drop (from + length part) (journal_of k) → part ++ next ≡ drop from (journal_of k) }
{}
