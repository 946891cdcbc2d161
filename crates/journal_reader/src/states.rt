//! What of a journal's text isn't read, and why nothing is.

ghost use Rattle.std.specs.Prelude.{◌≡◌, ◌<◌, ◌≤◌, length, string_bytes, vec_len};

use ipc_call::JournalRow;

/// Why nothing was read. Nothing is lost then.
#[derive(Clone, Copy, Debug, PartialEq, Eq)]
pub enum Unread {
    /// This other client combined, or took rows.
    Busy(u32),
    /// The service hands out no rows, or another reader has taken some.
    NoJournal,
    /// An allocation failed (ENOMEM).
    Memory,
}

/// What of a journal's text was taken from the service and isn't read.
#[derive(Drop)]
pub struct Reader {
    /// How many rows were taken.
    pub(crate) taken: u64,
    /// Rows that aren't in the text yet. There are none while the text isn't read.
    pub(crate) rows: Vec<JournalRow>,
    pub(crate) text: String,
    /// How many bytes of the text were read.
    pub(crate) at: usize,
    ghost within: { at ≤ length (string_bytes text) },
    ghost in_order: { at < length (string_bytes text) → vec_len rows ≡ 0 },
}
