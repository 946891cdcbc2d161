//! The map, its look-ups and its changes.

ghost use Rattle.std.specs.Prelude.{◌≡◌, ◌<◌, ◌≤◌, ◌^◌, ℕ, None, option_copied, IfNone, IfSome, IsSome, OnErr, OnOk};
ghost use Rattle.std.specs.Option.{option_copied_mut};
ghost use Rattle.std.specs.Borrow.{sem};
ghost use Rattle.std.specs.FinMap as finite;
ghost use Rattle.client_map.specs.Keys.{key};

use std::alloc::{AllocError, Global};
use std::collections::BTreeMap;
use std::marker::Model;
use std::ops::Bound;

/// Where a value stands: a number of a client.
#[derive(Clone, Copy, Debug, PartialEq, Eq, PartialOrd, Ord)]
pub(crate) struct Key {
    pub(crate) client: u64,
    pub(crate) number: u64,
}

/// What clients have under their numbers. Contracts see it as the finite map from client and number. The time of each
/// function is logarithmic in the values, but where it says more.
#[derive(Debug, Drop)]
pub struct ClientMap<V> {
    tree: BTreeMap<Key, V>,
}

impl<V> Model for ClientMap<V> {
    ghost use Rattle.std.specs.FinMap as finite;
    ghost use Rattle.client_map.specs.Keys.{key_cmp, key_code};

    ghost Value = { finite.FinMap key_cmp V };

    ghost coded = { finite.code key_code V.code };

    ghost view = { λ m. finite.from_entries m.tree.entries };
}

impl<V> ClientMap<V> {
    ghost use Rattle.client_map.specs.Lends.{lends_get};

    /// Nothing. It doesn't allocate; what comes later is taken from this allocator.
    pub fn new(alloc: Global) -> ClientMap<V>
        ensures { result ≡ finite.empty }
    {
        ClientMap {
            tree: BTreeMap::new(alloc),
        }
    }

    /// How many values there are.
    pub fn len(&self) -> usize
        ensures len { result ≡ finite.len self.now }
        ensures small { result < 2 ^ 63 }
    {
        self.tree.len()
    }

    /// What a client has under a number.
    pub fn get(&self, client: u64, number: u64) -> Option<&V>
        ensures { option_copied result ≡ finite.get self.now (key client number) }
    {
        self.tree.get(&Key { client, number })
    }

    /// What a client has under a number, to be changed.
    pub fn get_mut(&mut self, client: u64, number: u64) -> Option<&mut V>
        ensures* writes_back { sem 𝓛 (lends_get V.row self.entry client number result) }
        ensures value { option_copied_mut result ≡ finite.get self.old (key client number) }
    {
        self.tree.get_mut(&Key { client, number })
    }

    /// Takes out what a client has under a number.
    pub fn remove(&mut self, client: u64, number: u64) -> Option<V>
        ensures value { result ≡ finite.get self.old (key client number) }
        ensures left { self.new ≡ finite.remove self.old (key client number) }
    {
        self.tree.remove(&Key { client, number })
    }

    /// The least number under which a client has something.
    pub fn first(&self, client: u64) -> Option<u64>
        ensures none { IfNone result ((n : ℕ) → finite.get self.now (key client n) ≡ None) }
        ensures there { IfSome result (λ number. IsSome (finite.get self.now (key client number))) }
        ensures least { IfSome result (λ number. (n : ℕ) → n < number
            → finite.get self.now (key client n) ≡ None) }
    {
        self.first_from(client, 0)
    }

    /// The least number from this one on under which a client has something.
    pub fn first_from(&self, client: u64, number: u64) -> Option<u64>
        ensures none { IfNone result ((n : ℕ) → number ≤ n → finite.get self.now (key client n) ≡ None) }
        ensures there { IfSome result (λ first. IsSome (finite.get self.now (key client first))) }
        ensures from { IfSome result (λ first. number ≤ first) }
        ensures least { IfSome result (λ first. (n : ℕ) → number ≤ n → n < first
            → finite.get self.now (key client n) ≡ None) }
    {
        match self.tree.range(Key { client, number }..).next() {
            None => None,
            Some((key, _)) => {
                if key.client == client {
                    Some(key.number)
                } else {
                    None
                }
            }
        }
    }

    /// The least number above this one under which a client has something.
    pub fn next(&self, client: u64, number: u64) -> Option<u64>
        ensures none { IfNone result ((n : ℕ) → number < n → finite.get self.now (key client n) ≡ None) }
        ensures there { IfSome result (λ next. IsSome (finite.get self.now (key client next))) }
        ensures above { IfSome result (λ next. number < next) }
        ensures least { IfSome result (λ next. (n : ℕ) → number < n → n < next
            → finite.get self.now (key client n) ≡ None) }
    {
        let after = Bound::Excluded(Key { client, number });
        match self.tree.range((after, Bound::Unbounded)).next() {
            None => None,
            Some((key, _)) => {
                if key.client == client {
                    Some(key.number)
                } else {
                    None
                }
            }
        }
    }

    /// The least number below a limit under which a client has nothing. The time is also linear in that number.
    pub fn first_free(&self, client: u64, limit: u64) -> Option<u64>
        ensures below { IfSome result (λ number. number < limit) }
        ensures free { IfSome result (λ number. finite.get self.now (key client number) ≡ None) }
        ensures least { IfSome result (λ number. (n : ℕ) → n < number
            → IsSome (finite.get self.now (key client n))) }
        ensures none { IfNone result ((n : ℕ) → n < limit → IsSome (finite.get self.now (key client n))) }
    {
        let number = self.leading(client, limit);
        if number < limit { Some(number) } else { None }
    }

    /// How many numbers a client has in use from 0 on, up to the first that is free or to a limit.
    fn leading(&self, client: u64, limit: u64) -> u64
        ensures within { result ≤ limit }
        ensures taken { (n : ℕ) → n < result → IsSome (finite.get self.now (key client n)) }
        ensures free { result < limit → finite.get self.now (key client result) ≡ None }
    {
        let mut number = 0;
        for (key, _) in self.tree.range(Key { client, number: 0 }..) {
            if number == limit || key.client != client || key.number != number {
                return number;
            }
            number += 1;
        }
        number
    }
}

impl<V: Drop> ClientMap<V> {
    /// Puts a value under a number of a client, in place of what it has there. The error comes only where an allocation
    /// fails, and then nothing has changed but that the value is dropped.
    pub fn insert(&mut self, client: u64, number: u64, value: V) -> Result<(), AllocError>
        ensures ok { OnOk result (self.new ≡ finite.insert self.old (key client number) value) }
        ensures err { OnErr result (self.new ≡ self.old) }
    {
        self.tree.insert(Key { client, number }, value)?;
        Ok(())
    }
}
