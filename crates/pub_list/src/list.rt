//! The list with its memory.
ghost use Rattle.std.specs.Prelude.{◌≡◌, ◌≤◌};
ghost use Rattle.pub_rule.specs.declared.served.Slot.TheVariants as slots;
ghost use Rattle.pub_list.specs.Lists.{IsSized};

use atomic_table::Table;
use pub_rule::{Combining, Listed, Served, Slot, View, Work};
use std::alloc::Global;
use std::snapshot::Snapshot;

pub(crate) type Record<S> = Slot<<S as Served>::Call, <S as Served>::Reply, S>;

pub(crate) type Knowledge<S> = View<
    Work<<S as Served>::Event, <S as Served>::Call, <S as Served>::Reply>,
>;

pub(crate) type Records<S> = Table<
    Record<S>,
    Knowledge<S>,
    (u64, Snapshot<S>),
    Listed<Combining<S>>,
    Global,
>;

pub(crate) type Seat<S> = atomic_table::Seat<Record<S>, Knowledge<S>>;

/// A publication list that serves the state `S`: a record for each client, the records that joined in a list, and the
/// state. Threads share it by reference.
#[derive(Drop)]
pub struct List<S: Served> {
    pub(crate) table: Records<S>,
    pub(crate) clients: u32,
    ghost sized: { IsSized table.shared.table_id table.shared.key.0 clients },
}

impl<S: Served> List<S> {
    /// The number of clients, 1 to 64. They have the numbers below it.
    pub fn clients(&self) -> u32
        ensures { (result ≡ self.now.clients) × (1 ≤ result) × (result ≤ 64) }
    {
        self.clients
    }
}

// An empty slot. It is made by a function of its own, so that its bytes are cleared in their place, behind the atomic step that
// comes before: a function that makes both clears them ahead of the step, and copies them then.
#[inline(always)]
pub(crate) fn empty<S: Served>() -> Record<S>
    ensures { result ≡ slots.Empty }
{
    Slot::Empty
}

// Drops what an empty slot had, which is nothing. That it is known to be empty spares its reading.
pub(crate) fn drop_empty<S: Served>(before: Record<S>)
    requires { before ≡ slots.Empty }
{
    match before {
        Slot::Empty => {}
        _ => unreachable!(),
    }
}
