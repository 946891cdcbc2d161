//! Keys and the identifiers that they are bound to.

ghost use Rattle.std.specs.Prelude.{◌≡◌, ◌≢◌, OnOk, OnErr, Some, None};
ghost use Rattle.std.specs.FinMap as map;

use std::alloc::{AllocError, Global};
use std::collections::HashMap;
use std::hash::{BuildHasherDefault, FoldHasher};
use std::marker::Model;

/// The identifier of each key that is bound. A key is the bits of a key_t. Key 0, IPC_PRIVATE, is never bound
/// (msgget(2)).
#[derive(Debug, Drop)]
pub struct Keys {
    ids: HashMap<u32, u32, BuildHasherDefault<FoldHasher>, Global>,
}

impl Model for Keys {
    ghost use Rattle.std.specs.Prelude.{◌≡◌, ℕ, None};
    ghost use Rattle.std.specs.Ordering.{nat_cmp};
    ghost use Rattle.std.specs.FinMap as map;
    ghost use Rattle.std.specs.Coded.{codes};

    ghost Value = { map.FinMap nat_cmp ℕ };

    ghost coded = { Prim.hlevel (codes, map.code) };

    ghost view = { λ k. map.from_entries k.ids.entries };

    ghost invariant = { λ k. map.get (map.from_entries {R = nat_cmp} k.ids.entries) 0 ≡ None };
}

impl Keys {
    /// No key is bound.
    pub fn new(alloc: Global) -> Keys
        ensures { result ≡ map.empty }
    {
        Keys {
            ids: HashMap::new(alloc),
        }
    }

    /// The identifier that the key is bound to.
    pub fn find(&self, key: u32) -> Option<u32>
        ensures id { result ≡ map.get self.now key }
        ensures private { map.get self.now 0 ≡ None }
    {
        self.ids.get(&key).copied()
    }

    /// Binds a key. The error comes only where an allocation fails.
    pub fn bind(&mut self, key: u32, id: u32) -> Result<(), AllocError>
        requires key { key ≢ 0 }
        requires free { map.get self.old key ≡ None }
        ensures ok { OnOk result (self.new ≡ map.insert self.old key id) }
        ensures err { OnErr result (self.new ≡ self.old) }
    {
        self.ids.insert(key, id)?;
        Ok(())
    }

    /// Unbinds a key, or nothing where it isn't bound.
    pub fn unbind(&mut self, key: u32)
        ensures { self.new ≡ map.remove self.old key }
    {
        self.ids.remove(&key);
    }
}
