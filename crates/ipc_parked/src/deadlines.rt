// The deadlines of the calls that wait, from the soonest on.

ghost use Rattle.std.specs.Prelude.{◌≡◌, ℕ, ◌<◌, [], ◌∷◌, false, length, OnOk, slice_get, if◌then◌else◌, ◌==◌};
ghost use Rattle.ipc_parked.specs.Deadlines.{
  AreSorted,
  IsFirstReached,
  IsRank,
  IsSoonest,
  first_of as first_of_two,
  is_sooner,
  rows_at,
};

use ipc_call::Memory;
use std::alloc::Global;
use std::marker::Model;

/// The deadline of a client's call, with the number of its arrival.
#[derive(Clone, Copy, Debug)]
pub(crate) struct Due {
    pub(crate) deadline: u64,
    pub(crate) number: u64,
    pub(crate) client: u32,
}

/// The deadlines of the calls that have one. Contracts see them with the soonest first, those that are the same in order of
/// arrival, and for how many more there is room.
#[derive(Debug, Drop)]
pub(crate) struct Deadlines {
    rows: Vec<Due>,
}

impl Model for Deadlines {
    ghost use Rattle.std.specs.Prelude.{◌-◌, vec_len, vec_capacity};
    ghost use Rattle.ipc_parked.specs.Deadlines.{AreSorted, DeadlinesState};

    ghost Value = { DeadlinesState };

    ghost view = { λ d. record { rows = d.rows.items; spare = vec_capacity d.rows - vec_len d.rows } };

    ghost invariant = { λ d. AreSorted d.rows.items };
}

impl Deadlines {
    /// There is none. Nothing is allocated.
    pub(crate) fn new(alloc: Global) -> Deadlines
        ensures { result.rows ≡ [] }
    {
        Deadlines {
            rows: Vec::new(alloc),
        }
    }

    /// Makes room for one more.
    pub(crate) fn reserve_one(&mut self) -> Result<(), Memory>
        ensures room { OnOk result (0 < self.new.spare) }
        ensures rows { self.new.rows ≡ self.old.rows }
    {
        self.rows.reserve(1)?;
        Ok(())
    }

    /// The deadline of an arrival that has none yet. There is room for it.
    pub(crate) fn add(&mut self, row: Due)
        requires room { 0 < self.old.spare }
        requires new { rows_at row.number self.old.rows ≡ [] }
        ensures { (number : ℕ) → rows_at number self.new.rows ≡ (if row.number == number then row ∷ [] else rows_at number self.old.rows) }
    {
        let at = place_of(self.rows.as_slice(), row);
        self.rows.insert(at, row).unwrap();
    }

    /// Takes out the deadline of an arrival.
    pub(crate) fn remove(&mut self, row: Due)
        requires { rows_at row.number self.old.rows ≡ row ∷ [] }
        ensures { (number : ℕ) → rows_at number self.new.rows ≡ (if row.number == number then [] else rows_at number self.old.rows) }
    {
        let at = place_of(self.rows.as_slice(), row);
        self.rows.remove(at);
    }

    /// The soonest one.
    #[inline(always)]
    pub(crate) fn soonest(&self) -> Option<u64>
        ensures { IsSoonest self.now.rows result }
    {
        match self.rows.first() {
            None => None,
            Some(row) => Some(row.deadline),
        }
    }

    /// The earliest arrival whose deadline is reached at a second of the clock. The others cost nothing.
    pub(crate) fn first_reached(&self, clock: u64) -> Option<Due>
        ensures { IsFirstReached clock self.now.rows result }
    {
        first_in(self.rows.as_slice(), clock)
    }
}

/// The same of rows.
fn first_in(rows: &[Due], clock: u64) -> Option<Due>
    requires { AreSorted rows.now }
    ensures { IsFirstReached clock rows.now result }
{
    let mut first = None;
    for row in rows {
        if row.deadline > clock {
            return first;
        }
        first = Some(first_of(first, *row));
    }
    first
}

/// The one of two that arrived first.
fn first_of(first: Option<Due>, row: Due) -> Due
    ensures { result ≡ first_of_two first row }
{
    match first {
        None => row,
        Some(first) => {
            if first.number < row.number {
                first
            } else {
                row
            }
        }
    }
}

/// How many rows are before this one.
fn place_of(rows: &[Due], row: Due) -> usize
    requires { AreSorted rows.now }
    ensures { IsRank rows.now row result }
{
    rows.partition_point(|other| is_before(*other, row))
}

/// Whether one row is before another.
fn is_before(a: Due, b: Due) -> bool
    ensures { result ≡ is_sooner a b }
{
    a.deadline < b.deadline || (a.deadline == b.deadline && a.number < b.number)
}
