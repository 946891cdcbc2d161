// What is to be done for an event, in order, in room that is made at the start.

ghost use Rattle.std.specs.Prelude.{◌≡◌, ◌+◌, ◌<◌, ◌≤◌, ◌==◌, [], ◌∷◌, ◌++◌, drop, length, slice_get, IfOk};

use crate::outputs::Output;
use ipc_call::Memory;
use std::alloc::Global;
use std::collections::VecDeque;
use std::marker::Model;

/// What is to be done, the first first.
#[derive(Drop)]
pub(crate) struct Outputs {
    list: VecDeque<Output>,
}

impl Model for Outputs {
    ghost use Rattle.std.specs.Prelude.{◌-◌};
    ghost use Rattle.std.specs.VecDeque.{deque_capacity, deque_len};
    ghost use Rattle.ipc_server.specs.Held.{Outputs};

    ghost Value = { Outputs };

    ghost view = { λ o. record { list = o.list.items; room = deque_capacity o.list - deque_len o.list } };
}

impl Outputs {
    /// Nothing, with room for so many. The error comes only where an allocation fails.
    pub(crate) fn with_room(alloc: Global, room: usize) -> Result<Outputs, Memory>
        ensures { IfOk result (λ outputs. outputs ≡ record { list = []; room = room }) }
    {
        let list = VecDeque::with_capacity(alloc, room)?;
        Ok(Outputs { list })
    }

    /// Adds one behind the others. There is room for it.
    pub(crate) fn push(&mut self, output: Output)
        requires { 0 < self.old.room }
        ensures list { self.new.list ≡ self.old.list ++ output ∷ [] }
        ensures room { self.old.room ≤ self.new.room + 1 }
    {
        self.list.push_back(output).unwrap();
    }

    /// Takes out the first.
    pub(crate) fn pop(&mut self) -> Option<Output>
        ensures first { result ≡ slice_get self.old.list 0 }
        ensures rest { self.new.list ≡ drop 1 self.old.list }
        ensures room { self.old.room ≤ self.new.room }
    {
        self.list.pop_front()
    }

    /// For how many more there is room.
    pub(crate) fn room(&self) -> usize
        ensures { result ≡ self.now.room }
    {
        self.list.capacity() - self.list.len()
    }

    /// Whether there is none.
    pub(crate) fn is_empty(&self) -> bool
        ensures { result ≡ (length self.now.list == 0) }
    {
        self.list.is_empty()
    }
}
