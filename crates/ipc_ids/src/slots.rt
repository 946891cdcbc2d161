//! Slots and the objects in them.

ghost use Rattle.std.specs.Prelude.{
  ◌≡◌,
  ◌+◌,
  ◌*◌,
  ◌%◌,
  ◌<◌,
  ◌≤◌,
  true,
  is_none,
  IsSome,
  IfOk,
  IfErr,
  IfSome,
  IfNone,
  OnErr,
  option_copied,
  Some,
};
ghost use Rattle.std.specs.Option.{option_copied_mut};
ghost use Rattle.std.specs.Borrow.{Lends, sem};
ghost use Rattle.std.specs.FinMap as map;
ghost use Rattle.ipc_ids.specs.Table.{
  empty_table,
  id_of as identifier,
  next_id as id_of_next,
  id_in,
  ids_of,
  is_retired,
  with_object,
  without_object,
};
ghost use Rattle.ipc_ids.specs.Faults.{returned, is_of_slots};
ghost use Rattle.ipc_ids.specs.Slots.{
  seq_in,
  held_in,
  is_vacant as vacant,
  is_never_used,
  held_seq as held_seq_in,
  object_of,
  with_held,
  slot_after,
};

use std::alloc::{AllocError, Global};
use std::cmp::Reverse;
use std::collections::BinaryHeap;
use std::marker::Model;
use std::mem;

/// The most slots of a table, and so the distance between two identifiers of one slot.
const SLOTS: u32 = 32768;

/// Why an object got no identifier. It is handed back.
#[derive(Debug, Drop)]
pub enum InsertFault<T> {
    /// Each slot holds an object or is retired.
    NoSlot(T),
    /// An allocation failed.
    Memory(T),
}

/// The identifier of an object in a slot, 0 to 32767, with a sequence number: it is 0 to 2147483647, and no
/// other slot or sequence number has it.
pub fn id_of(seq: u16, slot: u16) -> u32
    requires { slot < 32768 }
    ensures { result ≡ identifier seq slot }
{
    u32::from(seq) * SLOTS + u32::from(slot)
}

/// The slot of an identifier, 0 to 32767.
fn slot_of(id: u32) -> u16
    ensures { result ≡ id % 32768 }
{
    (id % SLOTS) as u16
}

/// A slot that was used, with the sequence number of its object or of its next one.
#[derive(Debug, Drop)]
enum Slot<T> {
    Held { seq: u16, object: T },
    Vacant { seq: u16 },
    /// It is never used again: its object of sequence number 65535 was removed.
    Retired,
}

impl<T> Slot<T> {
    ghost use Rattle.ipc_ids.specs.contracts.slots.Slot.{the_row};

    /// Its object, where that has this sequence number.
    fn object(&self, seq: u32) -> Option<&T>
        ensures { option_copied result ≡ object_of seq self.now }
    {
        match self {
            Slot::Held { seq: own, object } if u32::from(*own) == seq => Some(object),
            _ => None,
        }
    }

    fn object_mut(&mut self) -> &mut T
        requires { IsSome (held_in self.old) }
        ensures* lends { sem 𝓛 (Lends (the_row T.row) T.row self.entry result (with_held self.entry.now)) }
        ensures value { held_in self.old ≡ Some result.now }
    {
        match self {
            Slot::Held { object, .. } => object,
            _ => unreachable!(),
        }
    }

    /// The sequence number of the object that it holds.
    fn held_seq(&self) -> Option<u16>
        ensures { result ≡ held_seq_in self.now }
    {
        match self {
            Slot::Held { seq, .. } => Some(*seq),
            _ => None,
        }
    }

    fn is_retired(&self) -> bool
        ensures { result ≡ is_never_used self.now }
    {
        matches!(self, Slot::Retired)
    }

    fn is_vacant(&self) -> bool
        ensures { result ≡ vacant self.now }
    {
        matches!(self, Slot::Vacant { .. })
    }

    /// The sequence number of the next object of a vacant slot.
    fn next_seq(&self) -> u16
        requires { vacant self.now ≡ true }
        ensures { self.now ≡ Slot.Vacant result }
    {
        match self {
            Slot::Vacant { seq } => *seq,
            _ => unreachable!(),
        }
    }

    /// Puts an object into a vacant slot, and answers its sequence number.
    fn fill(&mut self, object: T) -> u16
        requires { vacant self.old ≡ true }
        ensures before { self.old ≡ Slot.Vacant result }
        ensures after { self.new ≡ Slot.Held result object }
    {
        let seq = self.next_seq();
        match mem::replace(self, Slot::Held { seq, object }) {
            Slot::Vacant { .. } => seq,
            _ => unreachable!(),
        }
    }

    /// Takes the object out. The sequence number goes up by one, and past 65535 the slot is retired.
    fn vacate(&mut self) -> T
        requires { IsSome (held_in self.old) }
        ensures before { held_in self.old ≡ Some result }
        ensures after { self.new ≡ slot_after (seq_in self.old) }
    {
        let after = match self {
            Slot::Held { seq, .. } if *seq < 65535 => Slot::Vacant { seq: *seq + 1 },
            _ => Slot::Retired,
        };
        match mem::replace(self, after) {
            Slot::Held { object, .. } => object,
            _ => unreachable!(),
        }
    }
}

/// Objects in slots, each found by its identifier.
#[derive(Debug, Drop)]
pub struct Slots<T> {
    slots: u32,
    first_seq: u16,
    /// The slots that were used, in order from slot 0 on. Each later one is fresh.
    entries: Vec<Slot<T>>,
    /// The vacant ones of them, the lowest first. There is room for each that was used.
    free: BinaryHeap<Reverse<u16>, Global>,
}

impl<T> Model for Slots<T> {
    ghost use Rattle.std.specs.BinaryHeap.{heap_items, heap_len, heap_capacity};
    ghost use Rattle.std.specs.FinMap as map;
    ghost use Rattle.std.specs.Coded.{codes};
    ghost use Rattle.ipc_ids.specs.Table.{Table};

    ghost Value = { Table T };

    ghost coded = { Prim.hlevel (codes, map.code, T.code) };

    ghost use Rattle.ipc_ids.specs.Slots.{table_of, IsLayout};

    ghost view = { λ t. table_of t.slots t.first_seq t.entries.items };

    ghost invariant = { λ t. IsLayout
        t.slots
        t.first_seq
        t.entries.items
        (heap_items t.free)
        (heap_len t.free)
        (heap_capacity t.free) };
}

impl<T> Slots<T> {
    ghost use Rattle.ipc_ids.specs.Lends.{lends_get, lends_object};

    /// No object, in this many slots, each of which begins at this sequence number.
    pub fn new(alloc: Global, slots: u32, first_seq: u16) -> Slots<T>
        requires { slots ≤ 32768 }
        ensures { result ≡ empty_table slots first_seq }
    {
        Slots {
            slots,
            first_seq,
            entries: Vec::new(alloc),
            free: BinaryHeap::new(alloc),
        }
    }

    /// Puts an object into the lowest usable slot, and answers its identifier. `Memory` comes only where an
    /// allocation fails.
    pub fn try_insert(&mut self, value: T) -> Result<u32, InsertFault<T>>
        ensures id { IfOk result (λ id. id_of_next self.old ≡ Some id) }
        ensures inserted { IfOk result (λ id. self.new ≡ with_object self.old id value) }
        ensures fault { IfErr result (λ fault. is_of_slots fault ≡ is_none (id_of_next self.old)) }
        ensures value_returned { IfErr result (λ fault. returned fault ≡ value) }
        ensures err { OnErr result (self.new ≡ self.old) }
    {
        if let Some(Reverse(slot)) = self.free.pop() {
            let seq = self.entries[usize::from(slot)].fill(value);
            return Ok(id_of(seq, slot));
        }
        let fresh = self.entries.len();
        if fresh >= self.slots as usize {
            return Err(InsertFault::NoSlot(value));
        }
        if self.free.reserve(fresh + 1).is_err() || self.entries.reserve(1).is_err() {
            return Err(InsertFault::Memory(value));
        }
        let seq = self.first_seq;
        self.entries
            .push_reserved(Slot::Held { seq, object: value });
        Ok(id_of(seq, fresh as u16))
    }

    /// The identifier that `try_insert` would answer: that of the lowest slot that has no object and isn't
    /// retired.
    pub fn next_id(&self) -> Option<u32>
        ensures { result ≡ id_of_next self.now }
    {
        if let Some(Reverse(slot)) = self.free.peek() {
            let seq = self.entries[usize::from(*slot)].next_seq();
            return Some(id_of(seq, *slot));
        }
        let fresh = self.entries.len();
        if fresh < self.slots as usize {
            Some(id_of(self.first_seq, fresh as u16))
        } else {
            None
        }
    }

    /// The object of an identifier, None where it names nothing, or nothing any more.
    pub fn get(&self, id: u32) -> Option<&T>
        ensures { option_copied result ≡ map.get self.now.objects id }
    {
        self.entries
            .get(usize::from(slot_of(id)))?
            .object(id / SLOTS)
    }

    /// The object of an identifier, to be changed.
    pub fn get_mut(&mut self, id: u32) -> Option<&mut T>
        ensures* writes_back { sem 𝓛 (lends_get T.row self.entry id result) }
        ensures value { option_copied_mut result ≡ map.get self.old.objects id }
    {
        if self.get(id).is_some() {
            Some(self.object_mut(id))
        } else {
            None
        }
    }

    fn object_mut(&mut self, id: u32) -> &mut T
        requires { IsSome (map.get self.old.objects id) }
        ensures* writes_back { sem 𝓛 (lends_object T.row self.entry id result) }
        ensures value { map.get self.old.objects id ≡ Some result.now }
    {
        self.entries[usize::from(slot_of(id))].object_mut()
    }

    /// Takes out the object of an identifier. The sequence number of its slot goes up by one, so the identifier
    /// names nothing from then on; where it was 65535 the slot is retired.
    pub fn remove(&mut self, id: u32) -> Option<T>
        ensures value { result ≡ map.get self.old.objects id }
        ensures removed { IfSome result (λ x. self.new ≡ without_object self.old id) }
        ensures absent { IfNone result (self.new ≡ self.old) }
    {
        if self.get(id).is_none() {
            return None;
        }
        let slot = slot_of(id);
        let entry = &mut self.entries[usize::from(slot)];
        let object = entry.vacate();
        if !entry.is_vacant() {
            return Some(object);
        }
        self.free.push(Reverse(slot)).unwrap();
        Some(object)
    }

    /// The identifier of the object in a slot.
    pub fn id_at(&self, slot: u16) -> Option<u32>
        ensures { result ≡ id_in self.now slot }
    {
        let seq = self.entries.get(usize::from(slot))?.held_seq()?;
        Some(id_of(seq, slot))
    }

    /// The identifiers of the objects, by rising slot. The error comes only where an allocation fails.
    pub fn ids(&self) -> Result<Vec<u32>, AllocError>
        ensures { IfOk result (λ ids. ids.items ≡ ids_of self.now) }
    {
        let used = self.entries.len() as u16;
        (0..used)
            .filter_map(|slot| self.id_at(slot))
            .collect(*self.entries.allocator())
    }

    /// Whether a slot is never used again: its object of sequence number 65535 was removed.
    pub fn retired(&self, slot: u16) -> bool
        ensures { result ≡ is_retired self.now slot }
    {
        match self.entries.get(usize::from(slot)) {
            Some(entry) => entry.is_retired(),
            None => false,
        }
    }
}
