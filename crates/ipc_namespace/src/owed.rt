// The sets that the end of a process touches, where they are several.

ghost use Rattle.std.specs.Prelude.{◌≡◌, ◌<◌, ◌∷◌, ◌++◌, [], length};

use std::marker::Model;

/// The most there can be: on each a call waits, and at most one of each client.
const MOST: usize = 4096;

/// Identifiers of semaphore sets. Room for all is in it, so it takes no memory beyond its own.
#[derive(Debug, Drop)]
pub(crate) struct OwedSets {
    ids: [u32; MOST],
    len: usize,
}

impl Model for OwedSets {
    ghost use Rattle.std.specs.Prelude.{ℕ, ◌≤◌, List, take};

    ghost Value = { List ℕ };

    ghost view = { λ o. take o.len o.ids };

    ghost invariant = { λ o. o.len ≤ 4096 };
}

impl OwedSets {
    /// None.
    pub(crate) fn none() -> OwedSets
        ensures { result ≡ [] }
    {
        OwedSets {
            ids: [0; MOST],
            len: 0,
        }
    }

    /// One more, behind those that are there.
    pub(crate) fn push(&mut self, id: u32)
        requires { length self.old < 4096 }
        ensures { self.new ≡ self.old ++ id ∷ [] }
    {
        self.ids[self.len] = id;
        self.len += 1;
    }

    /// All of them.
    pub(crate) fn ids(&self) -> &[u32]
        ensures { result.now ≡ self.now }
    {
        &self.ids[..self.len]
    }
}
