// Rows are replayed: the history whose journal they are, or how far they are one.

ghost use Rattle.std.specs.Prelude.{◌≤◌, vec_len, IsTrue, IfOk};
ghost use Rattle.ipc_call.specs.Limits.{are_in_range};
ghost use Rattle.ipc_space.specs.Replays.{Replays};

use crate::comparing::{Compared, compare};
use crate::space::Space;
use ipc_call::{JournalRow, Limits, Memory};
use ipc_creds::Creds;

/// What came of a replay.
#[derive(Debug, Drop)]
pub enum Replayed {
    /// The rows are the journal of this namespace.
    Same(Space),
    /// So many of the rows begin a journal, and no more.
    Differs(u64),
}

/// Replays the rows of a journal in a namespace with these limits, each in its range, and 1 to 4,096 clients, by
/// their credentials at the start. `Same` comes with the namespace of the legal history whose journal is all of the
/// rows, in the state that the history leads to. Where there is none, `Differs` comes with the length of the longest
/// front of the rows that begins the journal of some legal history: the index of the first row that is wrong, and
/// their number where they end inside an event. A call of a client that waits, or that isn't there, is wrong.
/// Memory (ENOMEM) comes where a growth was refused.
pub fn replay(limits: Limits, clients: Vec<Creds>, rows: &[JournalRow]) -> Result<Replayed, Memory>
    requires limits { IsTrue (are_in_range limits) }
    requires some { 1 ≤ vec_len clients }
    requires few { vec_len clients ≤ 4096 }
    ensures { IfOk result (λ replayed. Replays limits clients.items rows.now replayed) }
{
    match compare(limits, clients, rows)? {
        Compared::Same(space) => Ok(Replayed::Same(space)),
        Compared::Differs(count, space) => {
            drop(space);
            Ok(Replayed::Differs(count as u64))
        }
    }
}
