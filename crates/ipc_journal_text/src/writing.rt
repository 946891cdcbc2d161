// A journal is written.

ghost use Rattle.std.specs.Prelude.{◌≡◌, ◌≤◌, IfOk, length, string_bytes};
ghost use Rattle.ipc_journal_text.specs.JournalText.{text_of};

use crate::printing::print_journal;
use ipc_call::{JournalRow, Limits, Memory};
use ipc_creds::Creds;
use std::alloc::Global;

/// The text of the journal with these rows, of a namespace with these limits and 1 to 4,096 clients, by their credentials at
/// the start. `read_journal` reads it back (`laws::one_text_one_journal`). `Memory` comes where a growth was refused.
pub fn write_journal(
    alloc: Global,
    limits: &Limits,
    clients: &[Creds],
    rows: &[JournalRow],
) -> Result<String, Memory>
    requires { length clients.now ≤ 4096 }
    ensures { IfOk result (λ text. string_bytes text ≡ text_of limits.now clients.now rows.now) }
{
    let mut text = String::new(alloc);
    print_journal(&mut text, limits, clients, rows)?;
    Ok(text)
}
