// The rows of an index.

ghost use Rattle.std.specs.Prelude.{◌≡◌, ℕ, ◌+◌, ◌-◌, ◌<◌, ◌≤◌, [], ◌||◌, ◌&&◌, not, true, false, length, slice_get, IfNone, IfOk, IfSome, ◌==◌};
ghost use Rattle.process_table.specs.Rows.{AreRising, IsPlace, holds, is_below};

use ipc_call::Memory;
use std::alloc::Global;
use std::marker::Model;

/// Numbers that rise, and for how many there is room. A search among them is logarithmic; where one comes or goes, the greater
/// ones are moved.
#[derive(Debug, Drop)]
pub(crate) struct Rows {
    rows: Vec<u64>,
}

impl Model for Rows {
    ghost use Rattle.std.specs.Prelude.{vec_capacity};
    ghost use Rattle.process_table.specs.Rows.{AreRising, RowsState};

    ghost Value = { RowsState };

    ghost view = { λ r. record { rows = r.rows.items; capacity = vec_capacity r.rows } };

    ghost invariant = { λ r. AreRising r.rows.items };
}

impl Rows {
    /// None, with room for so many. Memory comes where the allocation fails.
    pub(crate) fn with_capacity(alloc: Global, capacity: usize) -> Result<Rows, Memory>
        ensures { IfOk result (λ rows. rows ≡ record { rows = []; capacity = capacity }) }
    {
        Ok(Rows {
            rows: Vec::with_capacity(alloc, capacity)?,
        })
    }

    /// The least row from this one on.
    pub(crate) fn next(&self, from: u64) -> Option<u64>
        ensures none { IfNone result ((row : ℕ) → from ≤ row → holds row self.now.rows ≡ false) }
        ensures there { IfSome result (λ next. holds next self.now.rows ≡ true) }
        ensures from { IfSome result (λ next. from ≤ next) }
        ensures least { IfSome result (λ next. (row : ℕ) → from ≤ row → row < next → holds row self.now.rows ≡ false) }
    {
        let rows = self.rows.as_slice();
        row_at(rows, place_of(rows, from))
    }

    /// Puts in a row. There is room for it, and it isn't there.
    pub(crate) fn add(&mut self, row: u64)
        requires room { length self.old.rows < self.old.capacity }
        requires new { holds row self.old.rows ≡ false }
        ensures held { (other : ℕ) → holds other self.new.rows ≡ (row == other || holds other self.old.rows) }
        ensures length { length self.new.rows ≡ length self.old.rows + 1 }
        ensures capacity { self.new.capacity ≡ self.old.capacity }
    {
        let at = place_of(self.rows.as_slice(), row);
        self.rows.insert(at, row).unwrap();
    }

    /// Takes out a row, which is there.
    pub(crate) fn remove(&mut self, row: u64)
        requires there { holds row self.old.rows ≡ true }
        ensures held { (other : ℕ) → holds other self.new.rows ≡ (holds other self.old.rows && not (row == other)) }
        ensures length { length self.new.rows + 1 ≡ length self.old.rows }
        ensures capacity { self.new.capacity ≡ self.old.capacity }
    {
        let at = place_of(self.rows.as_slice(), row);
        self.rows.remove(at);
    }
}

/// The number of rows below a bound. Where that is all of them, no search is made.
fn place_of(rows: &[u64], bound: u64) -> usize
    requires { AreRising rows.now }
    ensures { IsPlace rows.now bound result }
{
    if ends_below(rows, bound) {
        return rows.len();
    }
    search(rows, bound)
}

/// Whether the last row is below a bound.
fn ends_below(rows: &[u64], bound: u64) -> bool
    ensures { result ≡ is_below bound (slice_get rows.now (length rows.now - 1)) }
{
    match rows.last() {
        None => false,
        Some(row) => *row < bound,
    }
}

/// The number of rows below a bound, by a search.
fn search(rows: &[u64], bound: u64) -> usize
    requires { AreRising rows.now }
    ensures { IsPlace rows.now bound result }
{
    rows.partition_point(|row| *row < bound)
}

/// The row at this place.
fn row_at(rows: &[u64], at: usize) -> Option<u64>
    ensures { result ≡ slice_get rows.now at }
{
    rows.get(at).copied()
}
