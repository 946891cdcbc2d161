//! The semaphore sets of a namespace.

ghost use Rattle.std.specs.Prelude.{◌≡◌, ◌<◌, ◌≤◌, ◌^◌, ℕ, false, true, IfNone, IfOk, IfErr, IfSome, IsSome, None, Some, option_copied, option_map};
ghost use Rattle.std.specs.FinMap as finite;
ghost use Rattle.ipc_ids.specs.Table.{empty_table, id_in, ids_of};
ghost use Rattle.ipc_model.specs.Controls.{perm_in, with_new_owner, without_set};
ghost use Rattle.ipc_model.specs.Decision.{Refused as RefusedBy};
ghost use Rattle.ipc_model.specs.Gets.{object_of_key};
ghost use Rattle.ipc_model.specs.Plan.{Plan, decision};
ghost use Rattle.ipc_model.specs.Semaphores.{set_at, values_at};
ghost use Rattle.ipc_model.specs.State.{SemSet, Sems};
ghost use Rattle.ipc_model.specs.Touched.{owes};
ghost use Rattle.ipc_objects.specs.Objects.{changed};
ghost use Rattle.ipc_objects.specs.declared.object.Object.{Object as Entry};
ghost use Rattle.ipc_perm.specs.Access.{Permission, denial};
ghost use Rattle.object_calls.specs.Permitted.{permitted};
ghost use Rattle.sem_undo.specs.Entries.{HasEntry, adj_of, nothing_undone};
ghost use Rattle.sem_calls.specs.WithRows.{row_at, sems_of};

use crate::set::Set;
use ipc_call::{Memory, Rule, Settings};
use ipc_objects::{Object, Objects};
use ipc_perm::{Perm, Want};
use object_calls::{Caller, owner_of};
use sem_undo::Undo;
use std::alloc::Global;
use std::marker::Model;

/// The semaphore sets of a namespace, by identifier and by key, and what exit undoes.
#[derive(Debug, Drop)]
pub struct Sets {
    pub(super) sets: Objects<Set>,
    pub(super) undo: Undo,
    pub(super) alloc: Global,
}

impl Model for Sets {
    ghost use Rattle.std.specs.FinMap as map;
    ghost use Rattle.std.specs.Coded.{codes};
    ghost use Rattle.sem_calls.specs.WithRows.{SetsWithRows};
    ghost use Rattle.sem_undo.specs.Codes.{undone_code};

    ghost Value = { SetsWithRows };

    ghost coded = { Prim.hlevel (codes, map.code, undone_code) };

    ghost view = { λ s. record { sets = s.sets; undone = s.undo } };
}

impl Sets {
    /// No set, with this many slots, at most 32768, and this sequence number in each.
    pub fn new(alloc: Global, slots: u32, first_seq: u16) -> Sets
        requires { slots ≤ 32768 }
        ensures { result ≡ record { sets = empty_table slots first_seq; undone = nothing_undone } }
    {
        Sets {
            sets: Objects::new(alloc, slots, first_seq),
            undo: Undo::new(alloc),
            alloc,
        }
    }

    /// The identifier and the permissions of the set of a key. None for key 0, IPC_PRIVATE.
    pub fn find(&self, key: u32) -> Option<(u32, Perm)>
        ensures { result ≡ option_map (λ found. (found.0, found.1.perm)) (object_of_key self.now.sets key) }
    {
        self.sets.find(key)
    }

    /// The set of an identifier.
    pub fn get(&self, id: u32) -> Option<&Object<Set>>
        ensures { option_copied result ≡ set_at (sems_of self.now) id }
    {
        self.sets.get(id)
    }

    /// The set of an identifier, where there is one and the caller has these rights at it.
    pub(super) fn permitted(&self, who: &Caller, id: u32, want: Want) -> Result<&Object<Set>, Rule>
        ensures there { IfOk result (λ set. set_at (sems_of self.now) id ≡ Some set.now) }
        ensures permitted { IfOk result (λ set. denial who.entry.now.creds (Permission set.now.perm want) ≡ None) }
        ensures refused { (rest : Entry SemSet → Plan Sems) → IfErr result (λ rule.
            decision who.entry.now.creds (permitted (set_at (sems_of self.now) id) want rest) ≡ RefusedBy rule) }
    {
        who.permitted(self.get(id), want)
    }

    /// The permissions of the set of an identifier.
    pub fn perm(&self, id: u32) -> Option<Perm>
        ensures { result ≡ perm_in self.now.sets id }
    {
        self.sets.perm(id)
    }

    /// The identifier of the set in a slot.
    pub fn id_at(&self, slot: u16) -> Option<u32>
        ensures { result ≡ id_in self.now.sets slot }
    {
        self.sets.id_at(slot)
    }

    /// The identifiers of the sets, by rising slot. The error comes only where an allocation fails.
    pub fn ids(&self) -> Result<Vec<u32>, Memory>
        ensures { IfOk result (λ ids. ids.items ≡ ids_of self.now.sets) }
    {
        self.sets.ids()
    }

    /// The values of all semaphores of the set of an identifier; none where there is no such set. The error comes only
    /// where an allocation fails.
    pub fn values(&self, id: u32) -> Result<Vec<u16>, Memory>
        ensures { IfOk result (λ values. values.items ≡ values_at (sems_of self.now) id) }
    {
        match self.get(id) {
            Some(set) => set.contents.semaphores.values(self.alloc),
            None => Ok(Vec::new(self.alloc)),
        }
    }

    /// What the exit of a client would add to a semaphore of the set of an identifier, its semadj there (semop(2)).
    pub fn semadj(&self, process: u64, id: u32, num: u16) -> i32
        ensures { result ≡ adj_of (sems_of self.now).undo process id num }
    {
        self.undo.adj(process, id, num)
    }

    /// The least set from this one on of which the process has a semadj, and so the only ones to which its end adds something.
    pub fn next_owed(&self, process: u64, from: u64) -> Option<u32>
        ensures none { IfNone result ((id : ℕ) → from ≤ id → owes (sems_of self.now) process id ≡ false) }
        ensures there { IfSome result (λ next. HasEntry (sems_of self.now).undo process next) }
        ensures from { IfSome result (λ next. from ≤ next) }
        ensures fits { IfSome result (λ next. next < 2 ^ 32) }
        ensures least { IfSome result (λ next. (id : ℕ) → from ≤ id → id < next → owes (sems_of self.now) process id ≡ false) }
    {
        self.undo.next_set(process, from)
    }

    /// Sets the owner and the mode of the set of an identifier, which there is, at a time in seconds (IPC_SET of
    /// semctl(2)). It takes no memory.
    pub fn set(&mut self, id: u32, new: Settings, now: u64)
        requires { IsSome (set_at (sems_of self.old) id) }
        ensures { self.new ≡ record self.old { sets = changed self.old.sets id (with_new_owner now new) } }
    {
        self.sets.set_owner(id, owner_of(new), now);
    }

    /// Takes out the set of an identifier, which there is, with what exit undoes of it, and frees its key. It takes no
    /// memory.
    pub fn remove(&mut self, id: u32)
        requires { IsSome (set_at (sems_of self.old) id) }
        ensures sems { sems_of self.new ≡ without_set (sems_of self.old) id }
        ensures rows { (client set : ℕ) → (set ≡ id → ⊥) → row_at self.new client set ≡ row_at self.old client set }
    {
        self.sets.remove(id);
        self.undo.remove_set(id);
    }
}
