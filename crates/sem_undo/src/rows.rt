//! Rows of semadj by client and set.

ghost use Rattle.std.specs.FinMap as finite;
ghost use Rattle.std.specs.Prelude.{◌≡◌, ◌<◌, ◌≤◌, ◌^◌, ℕ, length, pos, replicate, false, true};
ghost use Rattle.std.specs.Prelude.{if◌then◌else◌, slice_set, IfNone, IfOk, IfSome, OnErr, OnOk};
ghost use Rattle.client_map.specs.Keys.{key};
ghost use Rattle.sem_undo.specs.Rows.{each_at, grown, is_before, is_here, is_owed, removed, row_at, row_of, zeroed, zeroed_at, IsNoted};

use client_map::{ClientMap, narrow};
use ipc_call::Memory;
use std::alloc::Global;

/// The rows by client and set, each of the semadj by semaphore number.
#[derive(Debug, Drop)]
pub(crate) struct Rows {
    rows: ClientMap<Vec<i32>>,
    /// Each set's clients that have a row there, so that a set is cleared without a look at all clients.
    clients: ClientMap<()>,
    alloc: Global,
}

impl Rows {
    pub(crate) fn new(alloc: Global) -> Rows
        ensures rows { result.rows ≡ finite.empty }
        ensures noted { IsNoted result }
    {
        Rows {
            rows: ClientMap::new(alloc),
            clients: ClientMap::new(alloc),
            alloc,
        }
    }

    /// The row of a client at a set; empty where there is none.
    pub(crate) fn row(&self, client: u64, set: u32) -> &[i32]
        ensures { result.now ≡ row_at self.now client set }
    {
        match self.rows.get(client, set as u64) {
            None => &[],
            Some(row) => row.as_slice(),
        }
    }

    /// Makes the row of a client at a set as long as this, where it is no longer; the semadj that are new are 0.
    pub(crate) fn grow(&mut self, client: u64, set: u32, nsems: usize) -> Result<(), Memory>
        requires noted { IsNoted self.old }
        requires longer { length (row_at self.old client set) ≤ nsems }
        ensures noted { IsNoted self.new }
        ensures ok { OnOk result ((c s : ℕ) → row_of self.new c s
            ≡ (if is_here client set c s
            then Some (grown nsems (row_at self.old client set))
            else row_of self.old c s)) }
        ensures err { OnErr result (self.new.rows ≡ self.old.rows) }
    {
        let row = grown_row(self.alloc, self.row(client, set), nsems)?;
        let is_new = self.rows.get(client, set as u64).is_none();
        self.clients.insert(set as u64, client, ())?;
        match self.rows.insert(client, set as u64, row) {
            Ok(()) => Ok(()),
            Err(memory) => {
                if is_new {
                    self.clients.remove(set as u64, client);
                }
                Err(memory.into())
            }
        }
    }

    /// Writes a semadj into a row that is there.
    pub(crate) fn write(&mut self, client: u64, set: u32, num: usize, adj: i32)
        requires noted { IsNoted self.old }
        requires within { num < length (row_at self.old client set) }
        ensures noted { IsNoted self.new }
        ensures rows { (c s : ℕ) → row_of self.new c s
            ≡ (if is_here client set c s
            then Some (slice_set (row_at self.old client set) num adj)
            else row_of self.old c s) }
    {
        let row = self.rows.get_mut(client, set as u64).unwrap();
        row[num] = adj;
    }

    /// Sets a semadj of each client at a set to 0.
    pub(crate) fn clear(&mut self, set: u32, num: usize)
        requires noted { IsNoted self.old }
        ensures noted { IsNoted self.new }
        ensures rows { (c s : ℕ) → row_of self.new c s ≡ each_at set (zeroed_at num) (row_of self.old) c s }
    {
        let mut next = self.first_at(set);
        while let Some(client) = next {
            self.zero_at(client, set, num);
            next = self.next_at(set, client);
        }
    }

    /// Sets each semadj at a set to 0.
    pub(crate) fn clear_set(&mut self, set: u32)
        requires noted { IsNoted self.old }
        ensures noted { IsNoted self.new }
        ensures rows { (c s : ℕ) → row_of self.new c s ≡ each_at set zeroed (row_of self.old) c s }
    {
        let mut next = self.first_at(set);
        while let Some(client) = next {
            self.zero(client, set);
            next = self.next_at(set, client);
        }
    }

    /// Takes out each row at a set.
    pub(crate) fn remove_set(&mut self, set: u32)
        requires noted { IsNoted self.old }
        ensures noted { IsNoted self.new }
        ensures rows { (c s : ℕ) → row_of self.new c s ≡ each_at set removed (row_of self.old) c s }
    {
        let mut next = self.first_at(set);
        while let Some(client) = next {
            self.remove(client, set);
            next = self.next_at(set, client);
        }
    }

    /// The least client that may have a row at a set. None before it has one.
    fn first_at(&self, set: u32) -> Option<u64>
        ensures none { (c : ℕ) → is_before result c ≡ true → finite.get self.now.clients (key set c) ≡ None }
        ensures fits { IfSome result (λ client. client < 2 ^ 64) }
    {
        self.clients.first(set as u64)
    }

    /// The least client above this one that may have a row at a set. None between them has one.
    fn next_at(&self, set: u32, client: u64) -> Option<u64>
        ensures none { (c : ℕ) → client < c → is_before result c ≡ true → finite.get self.now.clients (key set c) ≡ None }
        ensures above { IfSome result (λ next. client < next) }
        ensures fits { IfSome result (λ next. next < 2 ^ 64) }
    {
        self.clients.next(set as u64, client)
    }

    /// Sets a semadj of a row to 0, where there is one.
    fn zero_at(&mut self, client: u64, set: u32, num: usize)
        requires noted { IsNoted self.old }
        ensures noted { IsNoted self.new }
        ensures rows { (c s : ℕ) → row_of self.new c s
            ≡ (if is_here client set c s
            then zeroed_at num (row_of self.old client set)
            else row_of self.old c s) }
    {
        if let Some(row) = self.rows.get_mut(client, set as u64) {
            zero_one(row, num);
        }
    }

    /// Sets each semadj of a row to 0, where there is one.
    fn zero(&mut self, client: u64, set: u32)
        requires noted { IsNoted self.old }
        ensures noted { IsNoted self.new }
        ensures rows { (c s : ℕ) → row_of self.new c s
            ≡ (if is_here client set c s
            then zeroed (row_of self.old client set)
            else row_of self.old c s) }
    {
        if let Some(row) = self.rows.get_mut(client, set as u64) {
            zero_all(row);
        }
    }

    /// The least set from this one on where a semadj of a client isn't 0.
    pub(crate) fn next_owed(&self, client: u64, from: u64) -> Option<u32>
        requires noted { IsNoted self.now }
        ensures none { IfNone result ((s : ℕ) → from ≤ s → is_owed (row_at self.now client s) ≡ false) }
        ensures there { IfSome result (λ next. is_owed (row_at self.now client next) ≡ true) }
        ensures from { IfSome result (λ next. from ≤ next) }
        ensures fits { IfSome result (λ next. next < 2 ^ 32) }
        ensures least { IfSome result (λ next. (s : ℕ) → from ≤ s → s < next → is_owed (row_at self.now client s) ≡ false) }
    {
        let mut next = self.next_row(client, from);
        while let Some(set) = next {
            if is_owed_in(self.row(client, set)) {
                return Some(set);
            }
            next = self.next_row(client, u64::from(set) + 1);
        }
        None
    }

    /// The least set from this one on where a client has a row.
    fn next_row(&self, client: u64, from: u64) -> Option<u32>
        requires noted { IsNoted self.now }
        ensures none { (s : ℕ) → from ≤ s → is_before result s ≡ true → row_of self.now client s ≡ None }
        ensures from { IfSome result (λ next. from ≤ next) }
        ensures fits { IfSome result (λ next. next < 2 ^ 32) }
    {
        narrow(self.rows.first_from(client, from))
    }

    /// Takes out the row of a client at the least set where it has one.
    pub(crate) fn take_first(&mut self, client: u64) -> Option<(u32, Vec<i32>)>
        requires noted { IsNoted self.old }
        ensures noted { IsNoted self.new }
        ensures none { IfNone result ((s : ℕ) → row_of self.old client s ≡ None) }
        ensures same { IfNone result (self.new ≡ self.old) }
        ensures row { IfSome result (λ r. row_of self.old client r.0 ≡ Some r.1.items) }
        ensures least { IfSome result (λ r. (s : ℕ) → s < r.0 → row_of self.old client s ≡ None) }
        ensures rest { IfSome result (λ r. (c s : ℕ) → row_of self.new c s
            ≡ (if is_here client r.0 c s then None else row_of self.old c s)) }
    {
        match narrow(self.rows.first(client)) {
            None => None,
            Some(set) => {
                let row = self.rows.remove(client, set as u64).unwrap();
                self.clients.remove(set as u64, client);
                Some((set, row))
            }
        }
    }

    /// Takes out the row of a client at a set.
    pub(crate) fn remove(&mut self, client: u64, set: u32)
        requires noted { IsNoted self.old }
        ensures noted { IsNoted self.new }
        ensures rows { (c s : ℕ) → row_of self.new c s
            ≡ (if is_here client set c s then None else row_of self.old c s) }
    {
        self.rows.remove(client, set as u64);
        self.clients.remove(set as u64, client);
    }
}

/// A row that begins as this one, with zeros up to its length.
fn grown_row(alloc: Global, row: &[i32], nsems: usize) -> Result<Vec<i32>, Memory>
    requires { length row.now ≤ nsems }
    ensures { IfOk result (λ longer. longer.items ≡ grown nsems row.now) }
{
    let mut longer = Vec::with_capacity(alloc, nsems)?;
    longer.extend_from_slice(row)?;
    longer.resize(nsems, 0)?;
    Ok(longer)
}

/// Sets a semadj to 0, where the row is that long.
fn zero_one(row: &mut Vec<i32>, num: usize)
    ensures { row.new.items ≡ slice_set row.old.items num (pos 0) }
{
    if num < row.len() {
        row[num] = 0;
    }
}

/// Sets each semadj to 0.
fn zero_all(row: &mut Vec<i32>)
    ensures { row.new.items ≡ replicate (length row.old.items) (pos 0) }
{
    row.fill(0);
}

/// Whether a semadj of a row isn't 0.
fn is_owed_in(row: &[i32]) -> bool
    ensures { result ≡ is_owed row.now }
{
    row.iter().any(|adj| *adj != 0)
}
