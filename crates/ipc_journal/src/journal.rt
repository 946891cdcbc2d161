ghost use Rattle.std.specs.Prelude.{◌≡◌, ◌+◌, ◌<◌, ◌≤◌, ◌^◌, [], ◌∷◌, ◌++◌, drop, length, vec_len, IsOk, OnOk, OnErr};

use crate::given::Given;
use ipc_call::{JournalRow, Memory};
use std::alloc::{AllocError, Global};
use std::fmt::{self, Debug, Formatter};
use std::marker::Model;
use std::mem;

/// The rows of a journal, with room for more that is made before they come. Its rows can be handed out: then it holds
/// those that come afterwards, and is still all of them.
#[derive(Drop)]
pub struct Journal {
    /// How many rows were handed out.
    given: u64,
    /// What rows it had when it handed rows out for the last time.
    before: Option<Given>,
    rows: Vec<JournalRow>,
}

impl Model for Journal {
    ghost use Rattle.std.specs.Prelude.{◌≡◌, ◌+◌, ◌<◌, ◌≤◌, ◌++◌, ◌^◌, length, vec_len, vec_capacity};
    ghost use Rattle.ipc_journal.specs.Given.{rows_before};
    ghost use Rattle.ipc_journal.specs.Journal.{Entries, room_for};

    ghost Value = { Entries };

    ghost view = { λ j. record { rows = rows_before j.before ++ j.rows.items; given = j.given; room = room_for (vec_capacity j.rows) (vec_len j.rows) j.given } };

    ghost invariant = { λ j. (length (rows_before j.before) ≡ j.given) × (j.given + vec_len j.rows < 2 ^ 64) };
}

impl Debug for Journal {
    fn fmt<W: fmt::Write>(&self, f: &mut Formatter<W>) -> fmt::Result {
        f.debug_struct("Journal")
            .field("given", &self.given)
            .field("rows", &self.rows)
            .finish()
    }
}

impl Journal {
    /// A journal with no row. It takes no memory.
    pub fn new(alloc: Global) -> Journal
        ensures rows { result.rows ≡ [] }
        ensures given { result.given ≡ 0 }
    {
        Journal {
            given: 0,
            before: None,
            rows: Vec::new(alloc),
        }
    }

    /// Makes room for so many more rows. The room at least doubles where it has to grow. Memory (ENOMEM) comes
    /// where that is refused, and where the rows would be 2^64.
    pub fn reserve(&mut self, rows: usize) -> Result<(), Memory>
        ensures rows { self.new.rows ≡ self.old.rows }
        ensures given { self.new.given ≡ self.old.given }
        ensures room { OnOk result (rows ≤ self.new.room) }
        ensures kept { self.old.room ≤ self.new.room }
        ensures fits { OnOk result (length self.new.rows + rows < 2 ^ 64) }
        ensures at_hand { rows ≤ self.old.room → IsOk result }
        ensures refused { OnErr result (self.new ≡ self.old) }
    {
        if rows > usize::MAX - self.given as usize - self.rows.len() {
            return Err(AllocError);
        }
        self.rows.reserve(rows)
    }

    /// Adds a row at the end, in room that there is. It takes no memory.
    #[inline(always)]
    pub fn enter(&mut self, row: JournalRow)
        requires { 0 < self.old.room }
        ensures rows { self.new.rows ≡ self.old.rows ++ row ∷ [] }
        ensures given { self.new.given ≡ self.old.given }
        ensures room { self.old.room ≤ self.new.room + 1 }
    {
        self.rows.push_reserved(row);
    }

    /// How many rows were handed out.
    pub fn given(&self) -> u64
        ensures { result ≡ self.now.given }
    {
        self.given
    }

    /// For how many more rows it has room, so that all its rows, those that were handed out too, stay fewer than 2^64.
    pub fn room(&self) -> usize
        ensures { result ≡ self.now.room }
    {
        let (capacity, len) = (self.rows.capacity(), self.rows.len());
        (capacity - len).min(usize::MAX - self.given as usize - len)
    }

    /// The rows that weren't handed out, oldest first: all, where none were.
    pub fn entries(&self) -> &[JournalRow]
        ensures kept { result.now ≡ drop self.now.given self.now.rows }
        ensures all { self.now.given ≡ 0 → result.now ≡ self.now.rows }
    {
        self.rows.as_slice()
    }

    /// Hands out the rows that weren't handed out, oldest first, with their room.
    pub fn take_rows(&mut self) -> Vec<JournalRow>
        ensures taken { result.items ≡ drop self.old.given self.old.rows }
        ensures rows { self.new.rows ≡ self.old.rows }
        ensures given { self.new.given ≡ length self.old.rows }
        ensures count { self.old.given + vec_len result ≡ length self.old.rows }
        ensures fits { length self.old.rows < 2 ^ 64 }
    {
        let none = Vec::new(*self.rows.allocator());
        if self.rows.is_empty() {
            return none;
        }
        let before = Given::of(&*self);
        let taken = mem::replace(&mut self.rows, none);
        self.given += taken.len() as u64;
        self.before = Some(before);
        taken
    }

    /// Hands out to nobody the rows that weren't handed out. Their room stays.
    #[inline(always)]
    pub fn forget_rows(&mut self)
        ensures rows { self.new.rows ≡ self.old.rows }
        ensures given { self.new.given ≡ length self.old.rows }
        ensures room { self.old.room ≤ self.new.room }
    {
        let all = Given::of(&*self);
        self.given += self.rows.len() as u64;
        self.rows.clear();
        self.before = Some(all);
    }
}
