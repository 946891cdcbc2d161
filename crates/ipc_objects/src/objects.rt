//! The objects of one kind, by identifier and by key.

ghost use Rattle.std.specs.Prelude.{
  ◌≡◌,
  ◌≤◌,
  Some,
  None,
  IfOk,
  OnOk,
  OnErr,
  IsSome,
  option_copied,
  option_map,
};
ghost use Rattle.std.specs.Option.{option_copied_mut};
ghost use Rattle.std.specs.Borrow.{sem};
ghost use Rattle.std.specs.FinMap as map;
ghost use Rattle.ipc_ids.specs.Table.{
  empty_table,
  find_object,
  id_in,
  ids_of,
  next_id as id_of_next,
  with_object,
  without_object,
};
ghost use Rattle.ipc_objects.specs.Objects.{
  IsOnly,
  changed,
  contents_of,
  has_key,
  with_key,
  with_owner,
  without_key,
};

use crate::object::{Object, Owner};
use ipc_call::Memory;
use ipc_ids::{InsertFault, Keys, Slots};
use ipc_perm::Perm;
use std::alloc::{AllocError, Global};
use std::marker::Model;

/// The objects of one kind. No two have one key; any number have key 0, IPC_PRIVATE, by which none is found.
#[derive(Debug, Drop)]
pub struct Objects<T> {
    slots: Slots<Object<T>>,
    keys: Keys,
}

impl<T> Model for Objects<T> {
    ghost use Rattle.std.specs.FinMap as map;
    ghost use Rattle.std.specs.Coded.{codes};
    ghost use Rattle.ipc_ids.specs.Table.{Table};
    ghost use Rattle.ipc_objects.specs.declared.object.Object.{Object as Entry};
    ghost use Rattle.ipc_objects.specs.Objects.{AreKeyed};

    ghost Value = { Table (Entry T) };

    ghost coded = { Prim.hlevel (codes, map.code, T.code) };

    ghost view = { λ o. o.slots };

    ghost invariant = { λ o. AreKeyed o.slots o.keys };
}

impl<T: Drop> Objects<T> {
    ghost use Rattle.ipc_objects.specs.Lends.{lends_contents};

    /// No object, in this many slots, each of which begins at this sequence number. It doesn't allocate.
    pub fn new(alloc: Global, slots: u32, first_seq: u16) -> Objects<T>
        requires { slots ≤ 32768 }
        ensures { result ≡ empty_table slots first_seq }
    {
        Objects {
            slots: Slots::new(alloc, slots, first_seq),
            keys: Keys::new(alloc),
        }
    }

    /// The identifier and permissions of the object that has the key. It looks the key up, and doesn't scan.
    pub fn find(&self, key: u32) -> Option<(u32, Perm)>
        ensures found { result ≡ option_map (λ found. (found.0, found.1.perm)) (find_object (has_key key) self.now) }
        ensures only { IsOnly self.now key (option_map (λ found. found.0) result) }
    {
        let (id, object) = self.seek(key)?;
        Some((id, object.perm))
    }

    /// The identifier of the object that has the key, and the object itself.
    pub fn seek(&self, key: u32) -> Option<(u32, &Object<T>)>
        ensures found { option_map (λ found. (found.0, found.1.now)) result ≡ find_object (has_key key) self.now }
        ensures only { IsOnly self.now key (option_map (λ found. found.0) result) }
    {
        let id = self.keys.find(key)?;
        let object = self.get(id)?;
        Some((id, object))
    }

    /// The object of the identifier.
    pub fn get(&self, id: u32) -> Option<&Object<T>>
        ensures { option_copied result ≡ map.get self.now.objects id }
    {
        self.slots.get(id)
    }

    /// The permissions of the object of the identifier.
    pub fn perm(&self, id: u32) -> Option<Perm>
        ensures { result ≡ option_map (λ object. object.perm) (map.get self.now.objects id) }
    {
        Some(self.get(id)?.perm)
    }

    /// The identifier that the next object will have; None where each slot holds one or is retired.
    pub fn next_id(&self) -> Option<u32>
        ensures { result ≡ id_of_next self.now }
    {
        self.slots.next_id()
    }

    /// Adds an object, whose key no other has, and answers its identifier. The error comes only where an
    /// allocation fails.
    pub fn insert(&mut self, object: Object<T>) -> Result<u32, Memory>
        requires slot { IsSome (id_of_next self.old) }
        requires free { find_object (has_key object.perm.key) self.old ≡ None }
        ensures id { IfOk result (λ id. id_of_next self.old ≡ Some id) }
        ensures ok { IfOk result (λ id. self.new ≡ with_object self.old id object) }
        ensures err { OnErr result (self.new ≡ self.old) }
    {
        let key = object.perm.key;
        let Some(next) = self.slots.next_id() else {
            unreachable!()
        };
        bind_key(&mut self.keys, key, next)?;
        match self.slots.try_insert(object) {
            Ok(id) => Ok(id),
            Err(InsertFault::NoSlot(_)) => unreachable!(),
            Err(InsertFault::Memory(_)) => {
                self.keys.unbind(key);
                Err(AllocError)
            }
        }
    }

    /// The contents of the object of the identifier, to be changed. Permissions and times aren't lent: only
    /// `set_owner`, `set_time` and `free_key` change them.
    pub fn contents_mut(&mut self, id: u32) -> Option<&mut T>
        ensures* writes_back { sem 𝓛 (lends_contents T.row self.entry id result) }
        ensures value { option_copied_mut result ≡ contents_of self.old id }
    {
        let object = self.slots.get_mut(id)?;
        Some(&mut object.contents)
    }

    /// Sets owner and permission bits, as IPC_SET does, at a time in seconds.
    pub fn set_owner(&mut self, id: u32, owner: Owner, now: u64)
        requires { IsSome (map.get self.old.objects id) }
        ensures { self.new ≡ changed self.old id (λ object. with_owner object owner now) }
    {
        let Some(object) = self.slots.get_mut(id) else {
            unreachable!()
        };
        object.perm.uid = owner.uid;
        object.perm.gid = owner.gid;
        object.perm.mode = owner.mode;
        object.change_time = now;
    }

    /// Sets the time of change of the object of the identifier, in seconds (SETVAL and SETALL of semctl(2)).
    pub fn set_time(&mut self, id: u32, now: u64)
        requires { IsSome (map.get self.old.objects id) }
        ensures { self.new ≡ changed self.old id (λ object. record object { change_time = now }) }
    {
        match self.slots.get_mut(id) {
            None => unreachable!(),
            Some(object) => object.change_time = now,
        }
    }

    /// Takes the key from the object of the identifier: its key is 0 from then on, and a new object may have
    /// the one that it had. So IPC_RMID treats a segment that is still attached (shmctl(2)).
    pub fn free_key(&mut self, id: u32)
        requires { IsSome (map.get self.old.objects id) }
        ensures { self.new ≡ changed self.old id without_key }
    {
        let Some(object) = self.slots.get_mut(id) else {
            unreachable!()
        };
        let key = object.perm.key;
        object.perm.key = 0;
        self.keys.unbind(key);
    }

    /// The identifier of the object in a slot.
    pub fn id_at(&self, slot: u16) -> Option<u32>
        ensures { result ≡ id_in self.now slot }
    {
        self.slots.id_at(slot)
    }

    /// The identifiers of the objects, by rising slot. The error comes only where an allocation fails.
    pub fn ids(&self) -> Result<Vec<u32>, Memory>
        ensures { IfOk result (λ ids. ids.items ≡ ids_of self.now) }
    {
        self.slots.ids()
    }

    /// Takes the object of the identifier out, and frees its key. It doesn't allocate.
    pub fn remove(&mut self, id: u32) -> Object<T>
        requires { IsSome (map.get self.old.objects id) }
        ensures object { map.get self.old.objects id ≡ Some result }
        ensures removed { self.new ≡ without_object self.old id }
    {
        let Some(object) = self.slots.remove(id) else {
            unreachable!()
        };
        self.keys.unbind(object.perm.key);
        object
    }
}

/// Binds the key of a new object, unless it is IPC_PRIVATE.
fn bind_key(keys: &mut Keys, key: u32, id: u32) -> Result<(), Memory>
    requires { map.get keys.old key ≡ None }
    ensures ok { OnOk result (keys.new ≡ with_key keys.old key id) }
    ensures err { OnErr result (keys.new ≡ keys.old) }
{
    if key == 0 {
        return Ok(());
    }
    keys.bind(key, id)
}
