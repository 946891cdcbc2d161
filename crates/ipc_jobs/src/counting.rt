//! What became of each client's calls.
ghost use Rattle.std.specs.Prelude.{◌≡◌, count_by, length, map, IfOk};
ghost use Rattle.ipc_jobs.specs.Courses.{AreCounts, IsCountOf};
ghost use Rattle.ipc_jobs.specs.Rows.{is_call_of as calls, is_refusal_of as refuses};

use ipc_call::{JournalRow, Memory};
use ipc_space::Space;
use std::alloc::Global;

/// How many calls of a client ended in which way.
#[derive(Clone, Copy, Debug, PartialEq, Eq)]
pub struct Counts {
    /// Its calls in the journal.
    pub calls: u64,
    /// The refusals among the replies to it, those to calls that waited too.
    pub refusals: u64,
    /// Its calls for which an allocation failed, which aren't in the journal. It stays at the largest number that it
    /// holds.
    pub memory: u64,
}

/// The counts of each client, by the journal and by the numbers of calls for which an allocation failed. It goes through
/// the journal twice for each client.
pub(crate) fn counts_of(alloc: Global, space: &Space, memory: &[u64]) -> Result<Vec<Counts>, Memory>
    requires { length memory.now ≡ length space.now.clients }
    ensures counts { IfOk result (λ counts. AreCounts space.now counts.items) }
    ensures memory { IfOk result (λ counts. map (λ n. n.memory) counts.items ≡ memory.now) }
{
    let mut counts = Vec::new(alloc);
    for client in 0..space.clients() {
        counts.push(counts_in(space, client, memory[client as usize]))?;
    }
    Ok(counts)
}

fn counts_in(space: &Space, client: u32, memory: u64) -> Counts
    ensures counts { IsCountOf space.now client result }
    ensures memory { result.memory ≡ memory }
{
    let rows = space.journal();
    Counts {
        calls: count_calls(rows, client),
        refusals: count_refusals(rows, client),
        memory,
    }
}

fn count_calls(rows: &[JournalRow], client: u32) -> u64
    ensures { result ≡ count_by (calls client) rows.now }
{
    let mut count: u64 = 0;
    for row in rows {
        if is_call_of(row, client) {
            count += 1;
        }
    }
    count
}

fn count_refusals(rows: &[JournalRow], client: u32) -> u64
    ensures { result ≡ count_by (refuses client) rows.now }
{
    let mut count: u64 = 0;
    for row in rows {
        if is_refusal_of(row, client) {
            count += 1;
        }
    }
    count
}

fn is_call_of(row: &JournalRow, number: u32) -> bool
    ensures { result ≡ calls number row.now }
{
    match row {
        JournalRow::Called { client, .. } => *client == number,
        JournalRow::Answered { .. } => false,
    }
}

fn is_refusal_of(row: &JournalRow, number: u32) -> bool
    ensures { result ≡ refuses number row.now }
{
    match row {
        JournalRow::Called { .. } => false,
        JournalRow::Answered { client, rule, .. } => *client == number && rule.is_some(),
    }
}
