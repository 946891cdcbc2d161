//! A counter, and that it meets the laws of a served state.
ghost use Rattle.std.specs.Prelude.{◌≡◌, ◌<◌, ◌^◌, [], length, IsNone, IfSome};
ghost use Rattle.pub_counter.specs.Counter.{total, IsAdded};

use pub_rule::Served;
use std::alloc::Global;

/// A client's turn: it added so much.
#[derive(Drop)]
pub struct Turn {
    /// The client's number.
    pub client: u64,
    /// What it added.
    pub amount: u64,
}

/// A counter to which clients add, with all turns so far.
#[derive(Drop)]
pub struct Counter {
    turns: Vec<Turn>,
    sum: u64,
    ghost summed: { sum ≡ total turns.items },
}

impl Counter {
    /// A counter to which nobody has added. It takes no memory.
    pub fn new(alloc: Global) -> Counter
        ensures { result.turns.items ≡ [] }
    {
        Counter {
            turns: Vec::new(alloc),
            sum: 0,
        }
    }

    /// All turns so far, in their order.
    pub fn turns(&self) -> &[Turn]
        ensures { result.now ≡ self.now.turns.items }
    {
        self.turns.as_slice()
    }

    /// Adds `amount` for `client`, and returns the sum of all amounts. `None` comes where the sum would be above
    /// `u64::MAX`, or memory was refused; the counter stays as it was.
    pub fn add(&mut self, client: u64, amount: u64) -> Option<u64>
        ensures none { IsNone result → self.new.turns.items ≡ self.old.turns.items }
        ensures some { IfSome result (λ sum. IsAdded client amount self.old.turns.items self.new.turns.items sum) }
    {
        let sum = self.sum.checked_add(amount)?;
        match self.turns.push(Turn { client, amount }) {
            Ok(()) => {
                self.sum = sum;
                Some(sum)
            }
            Err(_) => None,
        }
    }
}

/// A call is an amount, and its reply the sum of all amounts up to it.
impl Served for Counter {
    ghost use Rattle.pub_counter.specs.Counter.{own, replies, own_call, own_other, one_more, no_more};

    type Event = Turn;

    type Call = u64;

    type Reply = u64;

    ghost history = { λ s. s.turns.items };

    ghost legal = { λ h. total h < 2 ^ 64 };

    ghost client = { λ e. e.client };

    ghost call = { λ e. e.amount };

    ghost own = { own };

    ghost replies = { replies };

    ghost own_call = { λ h e _ _. own_call h e };

    ghost own_other = { λ h e r _ _. own_other h e r };

    ghost one_more = { λ h e r _ _. one_more h e r };

    ghost no_more = { λ h r _. no_more h r };
}
