// The clients that wait, by object.

ghost use Rattle.std.specs.Prelude.{◌≡◌, ℕ, ◌+◌, ◌<◌, [], ◌∷◌, ◌++◌, false, length, Some, slice_get, OnOk, if◌then◌else◌, ◌==◌};
ghost use Rattle.ipc_parked.specs.Waits.{
  AreRising,
  IsFirst,
  IsPlace,
  client_if,
  clients_at,
  is_wait,
  mark_at,
  without_first,
};

use crate::marks::{MARKED, Marks};
use ipc_call::Memory;
use std::alloc::Global;
use std::marker::Model;

/// A client that waits on an object.
#[derive(Clone, Copy, Debug)]
struct Wait {
    id: u32,
    client: u32,
}

impl Wait {
    /// The client, where it waits on this object.
    fn client_on(&self, id: u32) -> Option<u32>
        ensures { result ≡ client_if id (Some self.now) }
    {
        if self.id == id {
            Some(self.client)
        } else {
            None
        }
    }
}

/// The clients that wait on the objects of a kind. Contracts see them by rising identifier, on each object in order of
/// arrival, and for how many more there is room.
#[derive(Debug, Drop)]
pub(crate) struct Waits {
    rows: Vec<Wait>,
    /// Whether a client may wait on an object. Objects whose identifiers leave the same rest share a mark. Those of the rows
    /// are set, and none is where there are no rows.
    marks: Marks,
}

impl Model for Waits {
    ghost use Rattle.std.specs.Prelude.{◌-◌, vec_len, vec_capacity};
    ghost use Rattle.ipc_parked.specs.Waits.{AreMarked, AreRising, WaitsState};

    ghost Value = { WaitsState };

    ghost view = { λ w. record { rows = w.rows.items; spare = vec_capacity w.rows - vec_len w.rows } };

    ghost invariant = { λ w. AreRising w.rows.items × AreMarked w.marks w.rows.items };
}

impl Waits {
    /// None waits. Nothing is allocated.
    pub(crate) fn new(alloc: Global) -> Waits
        ensures { result.rows ≡ [] }
    {
        Waits {
            rows: Vec::new(alloc),
            marks: Marks::none(),
        }
    }

    /// Makes room for one more.
    pub(crate) fn reserve_one(&mut self) -> Result<(), Memory>
        ensures room { OnOk result (0 < self.new.spare) }
        ensures rows { self.new.rows ≡ self.old.rows }
    {
        self.rows.reserve(1)?;
        Ok(())
    }

    /// A client waits on an object from now on, after those that are there. There is room for it.
    pub(crate) fn add(&mut self, id: u32, client: u32)
        requires { 0 < self.old.spare }
        ensures { (i : ℕ) → clients_at i self.new.rows ≡ (if id == i then clients_at i self.old.rows ++ client ∷ [] else clients_at i self.old.rows) }
    {
        let at = place_of(self.rows.as_slice(), u64::from(id) + 1);
        self.rows.insert(at, Wait { id, client }).unwrap();
        self.marks.set(mark_of(id), true);
    }

    /// Whether a client may wait on an object: what the object's mark tells without a search.
    #[inline(always)]
    pub(crate) fn may_wait(&self, id: u32) -> bool
        ensures { result ≡ false → clients_at id self.now.rows ≡ [] }
    {
        self.marks.get(mark_of(id)).unwrap_or(true)
    }

    /// The client of this index, from 0, among those that wait on an object, in order of arrival.
    pub(crate) fn nth(&self, id: u32, index: usize) -> Option<u32>
        ensures { result ≡ slice_get (clients_at id self.now.rows) index }
    {
        let rows = self.rows.as_slice();
        let (_, rest) = rows.split_at(place_of(rows, u64::from(id)));
        client_here(rest, index, id)
    }

    /// The client waits on the object no longer.
    pub(crate) fn remove(&mut self, id: u32, client: u32)
        ensures { (i : ℕ) → clients_at i self.new.rows ≡ (if id == i then without_first client (clients_at i self.old.rows) else clients_at i self.old.rows) }
    {
        if let Some(at) = first_of(self.rows.as_slice(), id, client) {
            self.rows.remove(at);
            if self.rows.is_empty() {
                self.marks = Marks::none();
            }
        }
    }
}

/// The number of an object's mark.
#[inline(always)]
fn mark_of(id: u32) -> u32
    ensures { result ≡ mark_at id }
{
    id % MARKED as u32
}

/// The number of rows of objects below a bound.
fn place_of(rows: &[Wait], bound: u64) -> usize
    requires { AreRising rows.now }
    ensures { IsPlace rows.now bound result }
{
    rows.partition_point(|row| u64::from(row.id) < bound)
}

/// The first row of a client on an object.
fn first_of(rows: &[Wait], id: u32, client: u32) -> Option<usize>
    requires { AreRising rows.now }
    ensures { IsFirst id client rows.now result }
{
    let start = place_of(rows, u64::from(id));
    for at in start..rows.len() {
        if is_wait_at(rows, at, id, client) {
            return Some(at);
        }
    }
    None
}

/// Whether the row at this place is that of a client on an object.
fn is_wait_at(rows: &[Wait], at: usize, id: u32, client: u32) -> bool
    ensures { result ≡ is_wait id client (slice_get rows.now at) }
{
    match rows.get(at) {
        None => false,
        Some(row) => row.id == id && row.client == client,
    }
}

/// The client of the row at this place, where that is of the object.
fn client_here(rows: &[Wait], at: usize, id: u32) -> Option<u32>
    ensures { result ≡ client_if id (slice_get rows.now at) }
{
    match rows.get(at) {
        None => None,
        Some(row) => row.client_on(id),
    }
}
