//! Clients that meet in pairs: a served state whose calls wait.
ghost use Rattle.std.specs.Prelude.{◌≡◌, [], ◌∷◌, ◌++◌, length, IsTrue, IsFalse};
ghost use Rattle.pub_counter.specs.Swap.{alone};

use crate::counter::Turn;
use pub_rule::Served;
use std::alloc::Global;

/// Clients swap amounts in pairs: the first of two waits, and the second brings both the other's amount.
#[derive(Drop)]
pub struct Swap {
    turns: Vec<Turn>,
    waits: Option<(u64, u64)>,
    ghost last: { waits ≡ alone turns.items },
}

impl Swap {
    /// Nobody has called. It takes no memory.
    pub fn new(alloc: Global) -> Swap
        ensures { result.turns.items ≡ [] }
    {
        Swap {
            turns: Vec::new(alloc),
            waits: None,
        }
    }

    /// All turns so far, in their order.
    pub fn turns(&self) -> &[Turn]
        ensures { result.now ≡ self.now.turns.items }
    {
        self.turns.as_slice()
    }

    /// Who waits for another, and its amount.
    pub fn waits(&self) -> Option<(u64, u64)>
        ensures { result ≡ alone self.now.turns.items }
    {
        self.waits
    }

    /// Enters a call; false where memory was refused, and all is as it was.
    pub fn enter(&mut self, client: u64, amount: u64) -> bool
        ensures entered { IsTrue result → self.new.turns.items ≡ self.old.turns.items ++ record { client = client; amount = amount } ∷ [] }
        ensures refused { IsFalse result → self.new.turns.items ≡ self.old.turns.items }
    {
        match self.waits {
            None => self.push(client, amount, Some((client, amount))),
            Some(_) => self.push(client, amount, None),
        }
    }

    fn push(&mut self, client: u64, amount: u64, waits: Option<(u64, u64)>) -> bool
        requires { waits ≡ alone (self.old.turns.items ++ record { client = client; amount = amount } ∷ []) }
        ensures entered { IsTrue result → self.new.turns.items ≡ self.old.turns.items ++ record { client = client; amount = amount } ∷ [] }
        ensures refused { IsFalse result → self.new.turns.items ≡ self.old.turns.items }
    {
        if self.turns.push(Turn { client, amount }).is_err() {
            return false;
        }
        self.waits = waits;
        true
    }
}

/// A call is an amount, and its reply that of the client that it met.
impl Served for Swap {
    ghost use Rattle.pub_counter.specs.Counter.{own, own_call, own_other};
    ghost use Rattle.pub_counter.specs.Swap.{legal, replies, one_more, no_more};

    type Event = Turn;

    type Call = u64;

    type Reply = u64;

    ghost history = { λ s. s.turns.items };

    ghost legal = { legal };

    ghost client = { λ e. e.client };

    ghost call = { λ e. e.amount };

    ghost own = { own };

    ghost replies = { replies };

    ghost own_call = { λ h e _ _. own_call h e };

    ghost own_other = { λ h e r _ _. own_other h e r };

    ghost one_more = { λ h e r _ _. one_more h e r };

    ghost no_more = { λ h r _. no_more h r };
}
