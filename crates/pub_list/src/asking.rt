//! A client asks, and collects the answer.
ghost use Rattle.std.specs.Prelude.{◌≡◌, false};
ghost use Rattle.pub_list.specs.Clients.{view, work, BelongsTo, IsSame};
ghost use Rattle.pub_list.specs.Asking.{IsIdle, IsPosted, IsCollected};

use crate::joined::Joined;
use crate::list::{List, drop_empty, empty};
use crate::records::{WordState, state_of};
use pub_rule::{ANSWERED, CollectReply, FREE, POSTED, PostCall, Served, Slot, state_word};

/// How a call was answered.
#[derive(Drop)]
pub enum Answer<R> {
    /// By a reply.
    Reply(R),
    /// It was refused, as no memory was left, and is in no history.
    Memory,
}

impl<S: Served> Joined<S> {
    /// Posts a call: whoever combines may take it from now on. The client asks nothing before, and doesn't combine.
    pub fn post(&mut self, list: &List<S>, call: S::Call)
        requires list { BelongsTo list.now self.old }
        requires idle { IsIdle self.old.client (view self.old) }
        requires unheld { (work self.old).holds ≡ false }
        ensures client { IsSame self.old self.new }
        ensures posted { IsPosted self.old.client call (view self.old) (view self.new) }
    {
        let table = &list.table.shared;
        drop_empty::<S>(table.exchange(&mut self.seat, self.client as usize, Slot::Call(call)));
        table.store::<PostCall>(&mut self.seat, state_word(self.client), POSTED);
    }

    /// Collects the answer to the call that was posted. The error is how far the record is where it has no answer:
    /// free, posted, taken or parked. The client doesn't combine.
    pub fn collect(&mut self, list: &List<S>) -> Result<Answer<S::Reply>, WordState>
        requires list { BelongsTo list.now self.old }
        requires unheld { (work self.old).holds ≡ false }
        ensures client { IsSame self.old self.new }
        ensures collected { IsCollected S.legal S.own S.replies self.old.client (view self.old) (view self.new) result }
    {
        let table = &list.table.shared;
        let word = state_word(self.client);
        let found = table.compare_exchange::<CollectReply>(&mut self.seat, word, ANSWERED, FREE);
        if found != ANSWERED {
            return Err(state_of(found));
        }
        match table.exchange(&mut self.seat, self.client as usize, empty::<S>()) {
            Slot::Reply(reply) => Ok(Answer::Reply(reply)),
            Slot::Memory => Ok(Answer::Memory),
            _ => unreachable!(),
        }
    }
}
