//! The index of the types: where the messages of a type begin and end.

ghost use Rattle.std.specs.Prelude.{◌≡◌, ◌+◌, ◌<◌, ◌≤◌, ◌-◌, ◌^◌, [], ℤ, None, IfSome, IfNone, IsSome};
ghost use Rattle.std.specs.Prelude.{OnOk, IsTrue, true, if◌then◌else◌, drop, filter, find, insert, length};
ghost use Rattle.std.specs.Prelude.{slice_get, slice_set, option_copied, vec_capacity, vec_len};
ghost use Rattle.std.specs.Ordering.{int_eq};
ghost use Rattle.msg_queue.specs.Types.{
  ends_here,
  ends_in,
  has_messages as has_messages_in,
  is_lower_than,
  is_row_of,
  is_used,
  is_unused_in,
  AreRising,
  IsLeast,
  IsPlace,
  IsSpot,
};

use crate::nodes::Ends;
use ipc_call::Memory;
use std::alloc::Global;
use std::marker::Model;

/// A type with the ends of the list of its messages.
#[derive(Clone, Copy, Debug)]
pub(crate) struct Row {
    pub(crate) mtype: i64,
    pub(crate) ends: Ends,
}

impl Row {
    /// Whether its type has messages.
    fn has_messages(&self) -> bool
        ensures { result ≡ has_messages_in self.now }
    {
        self.ends.first.is_some()
    }

    /// Whether it has a first or a last message.
    fn is_used(&self) -> bool
        ensures { result ≡ is_used self.now }
    {
        self.ends.first.is_some() || self.ends.last.is_some()
    }
}

/// Where the row of a type stands, or would stand.
#[derive(Clone, Copy, Debug)]
pub(crate) struct Spot {
    mtype: i64,
    at: usize,
    is_there: bool,
}

/// A row for each type that has messages, by rising type. A row stays when its last message goes, with no ends, since
/// the next message is often of the same type: `trim` lets go of such rows in front, and `reserve_after` of all.
#[derive(Debug, Drop)]
pub(crate) struct Types {
    rows: Vec<Row>,
    // How many rows in front were let go.
    start: usize,
    // Where the row stands that was set last, which is often the next one that is sought.
    recent: usize,
}

impl Model for Types {
    ghost use Rattle.std.specs.Prelude.{◌-◌, ◌≤◌, drop, length, vec_len, vec_capacity};
    ghost use Rattle.msg_queue.specs.Types.{AreRising, TypesState};

    ghost Value = { TypesState };

    ghost view = { λ t. record { rows = drop t.start t.rows.items; spare = vec_capacity t.rows - vec_len t.rows } };

    ghost invariant = { λ t. (t.start ≤ length t.rows.items) × AreRising (drop t.start t.rows.items) };
}

impl Types {
    /// No type has messages.
    pub(crate) fn new(alloc: Global) -> Types
        ensures { result.rows ≡ [] }
    {
        Types {
            rows: Vec::new(alloc),
            start: 0,
            recent: 0,
        }
    }

    /// Makes room for one more row, beside those that were reserved. Rows that no message needs go first, where they
    /// are more than half.
    pub(crate) fn reserve_after(&mut self, reserved: usize, messages: usize) -> Result<(), Memory>
        requires { reserved ≤ self.old.spare }
        ensures room { OnOk result (reserved + 1 ≤ self.new.spare) }
        ensures fits { reserved + 1 < 2 ^ 64 }
        ensures ends { (t : ℤ) → ends_in self.new.rows t ≡ ends_in self.old.rows t }
        ensures kept { self.old.spare ≤ self.new.spare }
    {
        if self.rows.capacity() - self.rows.len() > reserved {
            return Ok(());
        }
        if self.rows.len() / 2 > messages {
            self.let_go();
        }
        self.rows.reserve(reserved + 1)?;
        Ok(())
    }

    /// Takes out all rows that no message needs.
    #[cold]
    #[inline(never)]
    fn let_go(&mut self)
        ensures ends { (t : ℤ) → ends_in self.new.rows t ≡ ends_in self.old.rows t }
        ensures spare { self.old.spare ≤ self.new.spare }
    {
        drop_first(&mut self.rows, self.start);
        self.start = 0;
        keep_used(&mut self.rows);
    }

    /// The rows that were not let go.
    fn live(&self) -> &[Row]
        ensures rows { result.now ≡ self.now.rows }
        ensures rising { AreRising result.now }
    {
        &self.rows.as_slice()[self.start..]
    }

    /// The spot of a type.
    #[inline(always)]
    pub(crate) fn seek(&self, mtype: i64) -> Spot
        ensures spot { IsSpot self.now.rows result }
        ensures mtype { result.mtype ≡ mtype }
    {
        let rows = self.live();
        if is_row_at(rows, self.recent, mtype) {
            return Spot {
                mtype,
                at: self.recent,
                is_there: true,
            };
        }
        let at = place_in(rows, mtype);
        let is_there = is_row_at(rows, at, mtype);
        Spot {
            mtype,
            at,
            is_there,
        }
    }

    /// The ends of the type of a spot.
    #[inline(always)]
    pub(crate) fn ends_at(&self, spot: Spot) -> Ends
        requires { IsSpot self.now.rows spot }
        ensures { result ≡ ends_in self.now.rows spot.mtype }
    {
        if spot.is_there {
            ends_in_row(self.live(), spot.at)
        } else {
            Ends::none()
        }
    }

    /// Sets the ends of the type of a spot. A row that is new needs room.
    #[inline(always)]
    pub(crate) fn put(&mut self, spot: Spot, ends: Ends)
        requires spot { IsSpot self.old.rows spot }
        requires room { (ends_in self.old.rows spot.mtype).first ≡ None → 0 < self.old.spare }
        ensures ends { (t : ℤ) → ends_in self.new.rows t
            ≡ (if int_eq spot.mtype t then ends else ends_in self.old.rows t) }
        ensures spare { self.old.spare ≤ self.new.spare + 1 }
        ensures kept { IsSome (ends_in self.old.rows spot.mtype).first → self.old.spare ≤ self.new.spare }
    {
        let Spot {
            mtype,
            at,
            is_there,
        } = spot;
        if is_there {
            self.set_row(at, Row { mtype, ends });
        } else {
            self.add_row(at, Row { mtype, ends });
        }
    }

    /// Sets a row.
    fn set_row(&mut self, at: usize, row: Row)
        requires within { at < length self.old.rows }
        requires rising { AreRising (slice_set self.old.rows at row) }
        ensures rows { self.new.rows ≡ slice_set self.old.rows at row }
        ensures spare { self.new.spare ≡ self.old.spare }
    {
        let index = self.start + at;
        self.rows[index] = row;
        self.recent = at;
    }

    /// Adds a row: one in front where one was let go, if there is such a place.
    #[inline(never)]
    fn add_row(&mut self, at: usize, row: Row)
        requires within { at ≤ length self.old.rows }
        requires rising { AreRising (insert self.old.rows at row) }
        requires room { 0 < self.old.spare }
        ensures rows { self.new.rows ≡ insert self.old.rows at row }
        ensures spare { self.old.spare ≤ self.new.spare + 1 }
    {
        self.recent = at;
        if at == 0 && self.start > 0 {
            self.start -= 1;
            self.rows[self.start] = row;
        } else {
            self.rows.insert(self.start + at, row).unwrap();
        }
    }

    /// Lets go of rows in front that no message needs, but for one.
    pub(crate) fn trim(&mut self)
        ensures ends { (t : ℤ) → ends_in self.new.rows t ≡ ends_in self.old.rows t }
        ensures spare { self.new.spare ≡ self.old.spare }
    {
        if is_pair_unused(self.rows.as_slice(), self.start) {
            self.start = trimmed(self.rows.as_slice(), self.start);
        }
    }

    /// The least type that has messages, with its ends.
    pub(crate) fn least(&self) -> Option<(i64, Ends)>
        ensures least { IfSome result (IsLeast self.now.rows) }
        ensures none { IfNone result ((t : ℤ) → (ends_in self.now.rows t).first ≡ None) }
    {
        let row = first_with_messages(self.live())?;
        Some((row.mtype, row.ends))
    }
}

/// Takes so many rows out in front.
fn drop_first(rows: &mut Vec<Row>, count: usize)
    requires { count ≤ length rows.old.items }
    ensures items { rows.new.items ≡ drop count rows.old.items }
    ensures room { vec_capacity rows.old - vec_len rows.old ≤ vec_capacity rows.new - vec_len rows.new }
{
    rows.drain(..count);
}

/// Keeps the rows that a message may need.
fn keep_used(rows: &mut Vec<Row>)
    ensures items { rows.new.items ≡ filter is_used rows.old.items }
    ensures room { vec_capacity rows.old - vec_len rows.old ≤ vec_capacity rows.new - vec_len rows.new }
{
    rows.retain(|row| row.is_used());
}

/// The first row of a type that has messages.
fn first_with_messages<'a>(rows: &'a [Row]) -> Option<&'a Row>
    ensures { option_copied result ≡ find has_messages_in rows.now }
{
    rows.iter().find(|row| row.has_messages())
}

/// Where the rows begin, once all in front that no message needs are let go but for one.
#[inline(never)]
fn trimmed(rows: &[Row], start: usize) -> usize
    requires within { start ≤ length rows.now }
    requires rising { AreRising (drop start rows.now) }
    ensures within { result ≤ length rows.now }
    ensures rising { AreRising (drop result rows.now) }
    ensures ends { (t : ℤ) → ends_in (drop result rows.now) t ≡ ends_in (drop start rows.now) t }
{
    let mut at = start;
    while is_pair_unused(rows, at) {
        at += 1;
    }
    at
}

/// The ends in the row at this place, none where none is.
fn ends_in_row(rows: &[Row], at: usize) -> Ends
    ensures { result ≡ ends_here (slice_get rows.now at) }
{
    match rows.get(at) {
        None => Ends::none(),
        Some(row) => row.ends,
    }
}

/// Whether the row at this place is that of the type.
fn is_row_at(rows: &[Row], at: usize, mtype: i64) -> bool
    ensures { result ≡ is_row_of mtype (slice_get rows.now at) }
{
    match rows.get(at) {
        None => false,
        Some(row) => row.mtype == mtype,
    }
}

/// Whether the row at this place is that of a lower type.
fn is_lower_at(rows: &[Row], at: usize, mtype: i64) -> bool
    ensures { result ≡ is_lower_than mtype (slice_get rows.now at) }
{
    match rows.get(at) {
        None => false,
        Some(row) => row.mtype < mtype,
    }
}

/// Whether there are rows at this place and the next, and no message needs them. (The next one is often missing.)
fn is_pair_unused(rows: &[Row], at: usize) -> bool
    requires { at ≤ length rows.now }
    ensures { IsTrue result → (is_unused_in (slice_get rows.now at) ≡ true) }
{
    is_unused_at(rows, at + 1) && is_unused_at(rows, at)
}

/// Whether there is a row at this place that no message needs.
fn is_unused_at(rows: &[Row], at: usize) -> bool
    ensures { result ≡ is_unused_in (slice_get rows.now at) }
{
    match rows.get(at) {
        None => false,
        Some(row) => !row.is_used(),
    }
}

/// The number of rows of lower types.
#[inline(never)]
fn place_in(rows: &[Row], mtype: i64) -> usize
    requires { AreRising rows.now }
    ensures { IsPlace rows.now mtype result }
{
    let mut low = 0;
    let mut high = rows.len();
    while low < high {
        let middle = low + (high - low) / 2;
        if is_lower_at(rows, middle, mtype) {
            low = middle + 1;
        } else {
            high = middle;
        }
    }
    low
}
