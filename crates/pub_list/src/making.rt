//! How a list is made.
ghost use Rattle.std.specs.Prelude.{◌≡◌, ℕ, ◌+◌, ◌<◌, ◌≤◌, [], length, IfOk, IfSome, All};
ghost use Rattle.std.specs.List.{slice_get};
ghost use Rattle.pub_rule.specs.Rule.{slots_of};
ghost use Rattle.pub_list.specs.Clients.{first_seen, IsFreshOf};
ghost use Rattle.pub_list.specs.Lists.{IsSized, IsMaker};
ghost use Rattle.pub_list.specs.Opening.{opening_of};

use crate::fresh::Fresh;
use crate::list::{List, Records, Seat};
use atomic_table::Table;
use pub_rule::{Served, Slot, SplitClient, word_count};
use std::alloc::{AllocError, Global};
use std::snapshot::Snapshot;

impl<S: Served> List<S> {
    /// A list of `clients` clients, 1 to 64, none of which has joined, and each client's seat, by its number from 0. In
    /// the state's history nobody has called; each client sees it from the start. `AllocError` comes where memory was
    /// refused, and drops the state.
    pub fn new(
        alloc: Global,
        clients: u32,
        state: S,
    ) -> Result<(List<S>, Vec<Fresh<S>>), AllocError>
        requires clients { (1 ≤ clients) × (clients ≤ 64) }
        requires legal { S.legal (S.history state) }
        requires uncalled { (r : ℕ) → S.own (S.history state) r ≡ [] }
        ensures clients { IfOk result (λ m. (m.0.clients ≡ clients) × (length m.1.items ≡ clients)) }
        ensures numbers { IfOk result (λ m. (k : ℕ) → IfSome (slice_get m.1.items k) (λ f. f.client ≡ k)) }
        ensures seats { IfOk result (λ m. All (λ f. IsFreshOf m.0 f) m.1.items) }
        ensures seen { IfOk result (λ m. All (λ f. first_seen f ≡ S.history state) m.1.items) }
        ensures opening { IfOk result (λ m. opening_of m.0 ≡ state) }
    {
        let words = vec![in alloc; 0; word_count(clients)]?;
        let about = (u64::from(clients), Snapshot::of(&state));
        let slots = empty_slots(alloc, clients, state)?;
        let (table, first) = match Table::new(alloc, &words, slots, &about) {
            Ok(made) => made,
            Err(_) => return Err(AllocError),
        };
        let fresh = make_clients(alloc, &table, first, clients)?;
        Ok((List { table, clients }, fresh))
    }
}

// The slots at the start: empty ones for the clients, then the state's.
fn empty_slots<S: Served>(
    alloc: Global,
    clients: u32,
    state: S,
) -> Result<Vec<Slot<S::Call, S::Reply, S>>, AllocError>
    requires { clients ≤ 64 }
    ensures { IfOk result (λ slots. slots.items ≡ slots_of clients state) }
{
    let mut slots = Vec::with_capacity(alloc, clients as usize + 1)?;
    for _ in 0..clients {
        slots.push(Slot::Empty)?;
    }
    slots.push(Slot::State(state))?;
    Ok(slots)
}

// A seat for each client, by its number.
fn make_clients<S: Served>(
    alloc: Global,
    table: &Records<S>,
    mut first: Seat<S>,
    clients: u32,
) -> Result<Vec<Fresh<S>>, AllocError>
    requires table { IsSized table.now.shared.table_id table.now.shared.key.0 clients }
    requires first { (first.table_id ≡ table.now.shared.table_id) × IsMaker 0 first }
    ensures count { IfOk result (λ m. length m.items ≡ clients) }
    ensures numbers { IfOk result (λ m. (k : ℕ) → IfSome (slice_get m.items k) (λ f. f.client ≡ k)) }
    ensures seats { IfOk result (λ m. All (λ f. f.seat.table_id ≡ table.now.shared.table_id) m.items) }
    ensures seen { IfOk result (λ m. All (λ f. f.seat.me.0.work.seen ≡ first.me.0.work.seen) m.items) }
{
    let mut made = Vec::with_capacity(alloc, clients as usize)?;
    for client in 0..clients {
        let seat = table.shared.split_seat::<SplitClient>(&mut first);
        made.push(Fresh { seat, client })?;
    }
    Ok(made)
}
