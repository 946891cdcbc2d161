// Rows are compared with what the definitions give.

ghost use Rattle.std.specs.Prelude.{◌≡◌, ◌≤◌, ◌<◌, true, false, [], length, take, vec_len, slice_get, IsTrue, IfOk, IfSome};
ghost use Rattle.ipc_call.specs.Limits.{are_in_range};
ghost use Rattle.ipc_model.specs.State.{is_waiting as waits};
ghost use Rattle.ipc_history.specs.History.{run};
ghost use Rattle.ipc_space.specs.Following.{Enters, IsAnswered};
ghost use Rattle.ipc_space.specs.Comparing.{Compares, Reached};

use crate::space::Space;
use ipc_call::{JournalRow, Limits, Memory};
use ipc_creds::Creds;

/// What came of a comparison.
#[derive(Debug, Drop)]
pub enum Compared {
    /// The rows are the journal of this namespace.
    Same(Space),
    /// So many of the rows begin a journal, and no more: that of this namespace, which has served the calls among them.
    /// What its journal has behind them is what should stand there; nothing where no further answer is due.
    Differs(usize, Space),
}

/// Replays the rows of a journal in a namespace with these limits, each in its range, and 1 to 4,096 clients, by their
/// credentials at the start, and says as `ipc_space::replay` where they first differ. `Memory` (ENOMEM) comes where a
/// growth was refused.
pub fn compare(limits: Limits, clients: Vec<Creds>, rows: &[JournalRow]) -> Result<Compared, Memory>
    requires limits { IsTrue (are_in_range limits) }
    requires some { 1 ≤ vec_len clients }
    requires few { vec_len clients ≤ 4096 }
    ensures { IfOk result (λ compared. Compares limits clients.items rows.now compared) }
{
    let mut space = Space::start(limits, clients)?;
    match follow(&mut space, rows) {
        Ok(None) => Ok(Compared::Same(space)),
        Ok(Some(count)) => Ok(Compared::Differs(count, space)),
        Err(memory) => {
            drop(space);
            Err(memory)
        }
    }
}

/// Serves the calls of the rows, in a namespace that has served none. None where the rows are then its journal;
/// else how many of them begin one.
fn follow(space: &mut Space, rows: &[JournalRow]) -> Result<Option<usize>, Memory>
    requires { space.old.events ≡ [] }
    ensures { IfOk result (λ count. Reached space.old.limits space.old.clients rows.now space.new count) }
{
    let mut at = 0;
    while at < rows.len() {
        if !enter(space, &rows[at])? {
            return Ok(Some(at));
        }
        let next = shared(space.journal(), rows, at + 1);
        if next < space.journal().len() {
            return Ok(Some(next));
        }
        at = next;
    }
    Ok(None)
}

/// Serves the call of a row. False where the row is none of an event that may come next: it is an answer, or its
/// client waits or isn't there.
fn enter(space: &mut Space, row: &JournalRow) -> Result<bool, Memory>
    ensures { IfOk result (λ entered. Enters space.old space.new row.now entered) }
{
    match row {
        JournalRow::Answered { .. } => Ok(false),
        JournalRow::Called { client, now, call } => {
            if !may_call(space, *client) {
                return Ok(false);
            }
            let copied = call.copy()?;
            space.apply(*client, *now, copied)?;
            Ok(true)
        }
    }
}

/// Whether the client is one of the namespace's, and none of its calls waits.
fn may_call(space: &Space, client: u32) -> bool
    ensures known { result ≡ true → client < length space.now.clients }
    ensures free { result ≡ true → waits (run space.now) client ≡ false }
    ensures other { client < length space.now.clients → waits (run space.now) client ≡ false → result ≡ true }
{
    client < space.clients() && !space.is_waiting(client)
}

/// How many rows two lists share, of which the first `from` are alike. Behind them answers alone are compared.
fn shared(a: &[JournalRow], b: &[JournalRow], from: usize) -> usize
    requires in_a { from ≤ length a.now }
    requires in_b { from ≤ length b.now }
    requires alike { take from a.now ≡ take from b.now }
    ensures least { from ≤ result }
    ensures in_a { result ≤ length a.now }
    ensures in_b { result ≤ length b.now }
    ensures alike { take result a.now ≡ take result b.now }
    ensures other { result < length a.now → result < length b.now → IfSome (slice_get a.now result) (λ row. IsAnswered row) → slice_get a.now result ≡ slice_get b.now result → ⊥ }
{
    let mut count = from;
    while count < a.len() && count < b.len() && same_answer(&a[count], &b[count]) {
        count += 1;
    }
    count
}

/// Whether both rows are the same answer.
fn same_answer(a: &JournalRow, b: &JournalRow) -> bool
    ensures same { result ≡ true → a.now ≡ b.now }
    ensures other { IsAnswered a.now → a.now ≡ b.now → result ≡ true }
{
    match (a, b) {
        (
            JournalRow::Answered {
                client,
                place,
                turn,
                rule,
            },
            JournalRow::Answered {
                client: other_client,
                place: other_place,
                turn: other_turn,
                rule: other_rule,
            },
        ) => {
            *client == *other_client
                && *place == *other_place
                && *turn == *other_turn
                && *rule == *other_rule
        }
        _ => false,
    }
}
