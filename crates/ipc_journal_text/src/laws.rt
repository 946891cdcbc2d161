//! What is true of the texts of all journals. A law is a function that does nothing: what it ensures is the law.

ghost use Rattle.ipc_journal_text.specs.Laws.{OneJournal};

/// Two journals with the same text are one: the same limits, credentials and rows. So what `read_journal` gives for a text is
/// the journal that was written.
pub fn one_text_one_journal()
    ensures { OneJournal }
{}
