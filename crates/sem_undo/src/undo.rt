//! The semadj of all clients.

ghost use Rattle.std.specs.Prelude.{◌≡◌, ◌==◌, ◌<◌, ◌≤◌, ◌^◌, ◌≤ℤ◌, ◌-ℤ◌, neg_ℤ, nat_lt, ℕ, length, not};
ghost use Rattle.std.specs.Prelude.{if◌then◌else◌, pos, true, IfNone, IfSome, OnErr, OnOk};
ghost use Rattle.std.specs.FinMap as finite;
ghost use Rattle.sem_undo.specs.Entries.{adj_of, cleared, nothing_undone, row_len};
ghost use Rattle.sem_undo.specs.Entries.{HasEntry, with_adj, without_client, without_row};
ghost use Rattle.sem_undo.specs.Rows.{adj_in};

use crate::rows::Rows;
use ipc_call::Memory;
use std::alloc::Global;
use std::marker::Model;

/// What exit undoes (semop(2), SEM_UNDO). Contracts see the entries by client, set and semaphore number, each a semadj
/// that isn't 0; and for which clients at which sets there is a row, memory for the entries to come, with its length.
#[derive(Debug, Drop)]
pub struct Undo {
    rows: Rows,
}

impl Model for Undo {
    ghost use Rattle.sem_undo.specs.Entries.{Undone};
    ghost use Rattle.sem_undo.specs.Codes.{undone_code};

    ghost Value = { Undone };

    ghost coded = { undone_code };

    ghost use Rattle.sem_undo.specs.Rows.{undone_in, IsNoted};

    ghost view = { λ u. undone_in u.rows.rows };

    ghost invariant = { λ u. IsNoted u.rows };
}

impl Undo {
    /// No entry and no row.
    pub fn new(alloc: Global) -> Undo
        ensures { result ≡ nothing_undone }
    {
        Undo {
            rows: Rows::new(alloc),
        }
    }

    /// The semadj of a client at a set by semaphore number; those past the end of the row are 0.
    pub fn row(&self, client: u64, set: u32) -> &[i32]
        ensures len { length result.now ≡ row_len self.now client set }
        ensures adjs { (num : ℕ) → adj_in result.now num ≡ adj_of self.now.entries client set num }
    {
        self.rows.row(client, set)
    }

    /// The semadj of a client at a semaphore.
    pub fn adj(&self, client: u64, set: u32, num: u16) -> i32
        ensures { result ≡ adj_of self.now.entries client set num }
    {
        match self.row(client, set).get(usize::from(num)) {
            None => 0,
            Some(adj) => *adj,
        }
    }

    /// Makes a row for the semaphores of a set, where the client has none that is as long there. The error comes only
    /// where an allocation fails.
    pub fn ensure_row(&mut self, client: u64, set: u32, nsems: usize) -> Result<(), Memory>
        ensures ok { OnOk result (self.new ≡ (if nat_lt (row_len self.old client set) nsems
            then record self.old {
              rows = finite.insert self.old.rows (record { client = client; set = set }) nsems;
            }
            else self.old)) }
        ensures err { OnErr result (self.new ≡ self.old) }
    {
        if self.row(client, set).len() < nsems {
            self.rows.grow(client, set, nsems)?;
        }
        Ok(())
    }

    /// Lowers a semadj by what an operation added (semop(2), SEM_UNDO). The client has a row for it.
    pub fn lower(&mut self, client: u64, set: u32, num: u16, by: i16)
        requires row { num < row_len self.old client set }
        requires least { neg_ℤ (pos 32768) ≤ℤ (adj_of self.old.entries client set num -ℤ by) }
        requires most { (adj_of self.old.entries client set num -ℤ by) ≤ℤ pos 32767 }
        ensures { self.new ≡ record self.old {
          entries = with_adj self.old.entries (record { client = client; set = set; num = num })
              (adj_of self.old.entries client set num -ℤ by);
        } }
    {
        let adj = self.adj(client, set, num) - i32::from(by);
        self.put(client, set, usize::from(num), adj);
    }

    /// Clears the entries of a semaphore, those of every client (semctl(2), SETVAL). The rows stay.
    pub fn clear(&mut self, set: u32, num: u32)
        ensures { self.new ≡ record self.old {
          entries = cleared self.old.entries set (λ n. n == num);
        } }
    {
        self.rows.clear(set, num as usize);
    }

    /// Clears the entries of all semaphores of a set, those of every client (semctl(2), SETALL). The rows stay.
    pub fn clear_set(&mut self, set: u32)
        ensures { self.new ≡ record self.old { entries = cleared self.old.entries set (λ _. true) } }
    {
        self.rows.clear_set(set);
    }

    /// Clears the entries of all semaphores of a set, those of every client, and lets the rows go (semctl(2),
    /// IPC_RMID).
    pub fn remove_set(&mut self, set: u32)
        ensures { self.new ≡ record {
          entries = cleared self.old.entries set (λ _. true);
          rows = finite.retain_keys self.old.rows (λ place. not (place.set == set));
        } }
    {
        self.rows.remove_set(set);
    }

    /// Takes out a row of a client: the least set where it has one, and its semadj there by semaphore number; None
    /// once it has none (semop(2), SEM_UNDO).
    pub fn take_all(&mut self, client: u64) -> Option<(u32, Vec<i32>)>
        ensures none { IfNone result (without_client self.old.entries client ≡ self.old.entries) }
        ensures no_row { IfNone result ((set : ℕ)
            → finite.get self.old.rows (record { client = client; set = set }) ≡ None) }
        ensures same { IfNone result (self.new ≡ self.old) }
        ensures len { IfSome result (λ row.
            finite.get self.old.rows (record { client = client; set = row.0 })
            ≡ Some (length row.1.items)) }
        ensures adjs { IfSome result (λ row. (num : ℕ)
            → adj_in row.1.items num ≡ adj_of self.old.entries client row.0 num) }
        ensures least { IfSome result (λ row. (set : ℕ) → set < row.0
            → finite.get self.old.rows (record { client = client; set = set }) ≡ None) }
        ensures rest { IfSome result (λ row. self.new ≡ record {
          entries = without_row self.old.entries client row.0;
          rows = finite.remove self.old.rows (record { client = client; set = row.0 });
        }) }
    {
        self.rows.take_first(client)
    }

    /// The least set from this one on where a client has an entry.
    pub fn next_set(&self, client: u64, from: u64) -> Option<u32>
        ensures none { IfNone result ((set num : ℕ) → from ≤ set → adj_of self.now.entries client set num ≡ pos 0) }
        ensures there { IfSome result (λ next. HasEntry self.now.entries client next) }
        ensures from { IfSome result (λ next. from ≤ next) }
        ensures fits { IfSome result (λ next. next < 2 ^ 32) }
        ensures least { IfSome result (λ next. (set num : ℕ) → from ≤ set → set < next
            → adj_of self.now.entries client set num ≡ pos 0) }
    {
        self.rows.next_owed(client, from)
    }

    /// Sets a semadj for which the client has a row.
    fn put(&mut self, client: u64, set: u32, num: usize, adj: i32)
        requires { num < row_len self.old client set }
        ensures { self.new ≡ record self.old {
          entries = with_adj self.old.entries (record { client = client; set = set; num = num }) adj;
        } }
    {
        self.rows.write(client, set, num, adj);
    }
}
