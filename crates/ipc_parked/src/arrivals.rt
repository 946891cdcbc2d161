// The calls that wait, under the numbers of their clients and in order of arrival.

ghost use Rattle.std.specs.Prelude.{◌≡◌, ℕ, ◌+◌, ◌<◌, [], ◌∷◌, ◌++◌, length, option_copied, slice_get, slice_set, vec_len, IfOk, OnErr, OnOk, None, Some, is_some, true};
ghost use Rattle.std.specs.Option.{option_map};
ghost use Rattle.ipc_parked.specs.Arrivals.{IsLine, IsTurn, is_below_number, other_stays, slot_at, stay_from, stay_of};

use crate::parked::Arrival;
use ipc_call::Memory;
use std::alloc::Global;
use std::marker::Model;

/// A call that waits. Calls that came later have higher numbers.
#[derive(Debug, Drop)]
pub(crate) struct Stay {
    pub(crate) number: u64,
    pub(crate) arrival: Arrival,
}

/// The calls that wait, at most one of each client. Contracts see them in order of arrival, with the number that the next
/// will have.
#[derive(Debug, Drop)]
pub(crate) struct Arrivals {
    /// The call of each client, where one waits.
    slots: Vec<Option<Stay>>,
    /// The clients that wait, in order of arrival.
    order: Vec<u32>,
    next: u64,
}

impl Model for Arrivals {
    ghost use Rattle.ipc_parked.specs.Arrivals.{ArrivalsState, Holds, IsLine, stays_in};

    ghost Value = { ArrivalsState };

    ghost view = { λ a. record { stays = stays_in a.slots.items a.order.items; next = a.next } };

    ghost invariant = { λ a. IsLine a.next (stays_in a.slots.items a.order.items) × Holds a.slots.items a.order.items (stays_in a.slots.items a.order.items) };
}

impl Arrivals {
    /// None waits. Nothing is allocated.
    pub(crate) fn new(alloc: Global) -> Arrivals
        ensures { result.stays ≡ [] }
    {
        Arrivals {
            slots: Vec::new(alloc),
            order: Vec::new(alloc),
            next: 0,
        }
    }

    /// The call of a client, none of which waits, comes after those that are there. Gives the number of its arrival. An
    /// error comes where an allocation fails, and after 2^64 - 1 calls.
    pub(crate) fn push(&mut self, client: u32, arrival: Arrival) -> Result<u64, Memory>
        requires free { stay_of client self.old.stays ≡ None }
        ensures number { IfOk result (λ number. number ≡ self.old.next) }
        ensures came { OnOk result (self.new.stays ≡ self.old.stays ++ (client, stay_from self.old.next arrival) ∷ []) }
        ensures next { OnOk result (self.new.next ≡ self.old.next + 1) }
        ensures err { OnErr result (self.new ≡ self.old) }
    {
        let number = self.next;
        if number == u64::MAX {
            return Err(Memory {});
        }
        self.order.reserve(1)?;
        grow(&mut self.slots, client)?;
        put(&mut self.slots, client, Stay { number, arrival });
        self.order.push(client).unwrap();
        self.next = number + 1;
        Ok(number)
    }

    /// How many there are.
    pub(crate) fn len(&self) -> usize
        ensures { result ≡ length self.now.stays }
    {
        self.order.len()
    }

    /// Whether a call of the client waits.
    #[inline(always)]
    pub(crate) fn contains(&self, client: u32) -> bool
        ensures { result ≡ is_some (stay_of client self.now.stays) }
    {
        match self.slots.get(client as usize) {
            None => false,
            Some(slot) => slot.is_some(),
        }
    }

    /// The client's call that waits.
    #[inline(always)]
    pub(crate) fn get(&self, client: u32) -> Option<&Stay>
        ensures { option_copied result ≡ stay_of client self.now.stays }
    {
        self.slots.get(client as usize)?.as_ref()
    }

    /// The call at an index in order of arrival, from 0, with its client.
    #[inline(always)]
    pub(crate) fn nth(&self, index: usize) -> Option<(u32, &Stay)>
        ensures { option_map {U = ℕ × Stay} (λ found. (found.0, found.1.now)) result ≡ slice_get self.now.stays index }
    {
        let client = client_at(self.order.as_slice(), index)?;
        Some((client, self.get(client).unwrap()))
    }

    /// Takes out the client's call, and the others keep their order.
    pub(crate) fn remove(&mut self, client: u32) -> Stay
        requires { is_some (stay_of client self.old.stays) ≡ true }
        ensures taken { stay_of client self.old.stays ≡ Some result }
        ensures rest { self.new.stays ≡ other_stays client self.old.stays }
        ensures next { self.new.next ≡ self.old.next }
    {
        let number = self.get(client).unwrap().number;
        let at = self.place_of(number);
        self.order.remove(at);
        take_out(&mut self.slots, client).unwrap()
    }

    /// How many there are of numbers below this one.
    fn place_of(&self, number: u64) -> usize
        requires { IsLine self.now.next self.now.stays }
        ensures { IsTurn self.now.stays number result }
    {
        let mut low = 0;
        let mut size = self.len();
        while size > 0 {
            let half = size / 2;
            if self.is_below_at(low + half, number) {
                low += size - half;
            }
            size = half;
        }
        low
    }

    /// Whether the call at an index is of a number below this one.
    fn is_below_at(&self, at: usize, number: u64) -> bool
        ensures { result ≡ is_below_number number (slice_get self.now.stays at) }
    {
        match self.nth(at) {
            None => false,
            Some((_, stay)) => stay.number < number,
        }
    }
}

/// The client at an index.
#[inline(always)]
fn client_at(order: &[u32], index: usize) -> Option<u32>
    ensures { result ≡ slice_get order.now index }
{
    order.get(index).copied()
}

/// Makes a slot for a client.
fn grow(slots: &mut Vec<Option<Stay>>, client: u32) -> Result<(), Memory>
    ensures room { OnOk result (client < vec_len slots.new) }
    ensures slots { (other : ℕ) → slot_at slots.new.items other ≡ slot_at slots.old.items other }
{
    while slots.len() <= client as usize {
        slots.push(None)?;
    }
    Ok(())
}

/// Puts a call into the slot of a client.
fn put(slots: &mut Vec<Option<Stay>>, client: u32, stay: Stay)
    requires { client < vec_len slots.old }
    ensures { slots.new.items ≡ slice_set slots.old.items client (Some stay) }
{
    slots[client as usize] = Some(stay);
}

/// Takes the call out of the slot of a client.
fn take_out(slots: &mut Vec<Option<Stay>>, client: u32) -> Option<Stay>
    ensures taken { result ≡ slot_at slots.old.items client }
    ensures left { slots.new.items ≡ slice_set slots.old.items client None }
{
    slots.get_mut(client as usize)?.take()
}
