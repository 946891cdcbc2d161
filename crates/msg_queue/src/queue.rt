//! A queue with its messages, its limit and its reserved places.

ghost use Rattle.std.specs.Prelude.{◌≡◌, ◌≢◌, ◌↔◌, ◌+◌, ◌-◌, ◌<◌, nat_lt, [], ◌∷◌, ◌++◌, length};
ghost use Rattle.std.specs.Prelude.{remove, slice_get, false, not, ◌||◌, option_map, AllPairs, Some};
ghost use Rattle.std.specs.Prelude.{IsSome, IsNone, IfSome, OnOk, OnErr};
ghost use Rattle.msg_queue.specs.Messages.{bytes_of, is_full, select, selected};
ghost use Rattle.msg_queue.specs.Links.{first_place, is_first_other, other_of, other_type, without};
ghost use Rattle.msg_queue.specs.Queues.{contents, position_of, Chooses};

use crate::messages::{Message, magnitude};
use crate::nodes::{
    Chain, Ends, Link, Node, Place, append, first_unlike_behind, insert_reserved, is_followed,
    is_other_at, unlink,
};
use crate::types::Types;
use ipc_call::{Items, Memory};
use slab::Slab;
use std::alloc::Global;
use std::marker::Model;

/// A message queue (msgop(2), msgctl(2)). Contracts see its messages in their order, each with a place, a
/// number by which `take` finds it; its `msg_qbytes`; and for how many messages to come memory is reserved.
#[derive(Debug, Drop)]
pub struct Queue {
    nodes: Slab<Node>,
    ends: Ends,
    // The first message of another type than the first message.
    other: Place,
    types: Types,
    bytes: u64,
    qbytes: u64,
    reserved: usize,
}

impl Model for Queue {
    ghost use Rattle.std.specs.Prelude.{◌≡◌, ◌+◌, ◌≤◌, map};
    ghost use Rattle.slab.specs.Slab.{slab_len};
    ghost use Rattle.msg_queue.specs.Messages.{bytes_of};
    ghost use Rattle.msg_queue.specs.Queues.{QueueState, messages_of};
    ghost use Rattle.msg_queue.specs.Links.{Holds, other_of, walk};
    ghost use Rattle.msg_queue.specs.Types.{ends_in};

    ghost Value = { QueueState };

    ghost view = { λ q. record {
      placed = walk (slab_len q.nodes) q.nodes q.ends.first;
      qbytes = q.qbytes;
      reserved = q.reserved;
    } };

    ghost invariant = { λ q. Holds q.nodes q.ends (ends_in q.types.rows) (walk (slab_len q.nodes) q.nodes q.ends.first)
        × (q.bytes ≡ bytes_of (messages_of (walk (slab_len q.nodes) q.nodes q.ends.first)))
        × (slab_len q.nodes + q.reserved ≤ q.nodes.capacity)
        × (q.reserved ≤ q.types.spare)
        × (q.other ≡ other_of (walk (slab_len q.nodes) q.nodes q.ends.first)) };
}

impl Queue {
    /// A queue with no message.
    pub fn new(alloc: Global, qbytes: u64) -> Queue
        ensures { result ≡ record { placed = []; qbytes = qbytes; reserved = 0 } }
    {
        Queue {
            nodes: Slab::new(alloc),
            ends: Ends::none(),
            other: Place::none(),
            types: Types::new(alloc),
            bytes: 0,
            qbytes,
            reserved: 0,
        }
    }

    /// Whether a message with a text of `len` bytes may be sent now (msgop(2), msgsnd): neither the bytes of
    /// all texts nor the number of messages would be above `msg_qbytes`.
    pub fn fits(&self, len: usize) -> bool
        ensures { result ≡ not (is_full (contents self.now) self.now.qbytes len) }
    {
        let count = self.nodes.len() as u64;
        is_room(self.bytes, count, self.qbytes, len as u64)
    }

    /// Reserves memory for one more message to come. The error comes only where an allocation fails.
    pub fn reserve_one(&mut self) -> Result<(), Memory>
        ensures ok { OnOk result (self.new ≡ record self.old { reserved = self.old.reserved + 1 }) }
        ensures err { OnErr result (self.new ≡ self.old) }
    {
        self.types.reserve_after(self.reserved, self.nodes.len())?;
        self.nodes.reserve(self.reserved + 1)?;
        self.reserved += 1;
        Ok(())
    }

    /// Adds a message at the end, in memory that was reserved (msgop(2), msgsnd).
    pub fn put(&mut self, mtype: i64, text: Items<u8>)
        requires reserved { 0 < self.old.reserved }
        requires room { is_full (contents self.old) self.old.qbytes (length text) ≡ false }
        ensures messages { contents self.new
            ≡ contents self.old ++ record { mtype = mtype; text = text } ∷ [] }
        ensures qbytes { self.new.qbytes ≡ self.old.qbytes }
        ensures reserved { self.new.reserved + 1 ≡ self.old.reserved }
    {
        let is_first_other = self.is_first_other(mtype);
        self.bytes += text.len() as u64;
        self.reserved -= 1;
        let spot = self.types.seek(mtype);
        let ends = self.types.ends_at(spot);
        let arrival = Link::behind(self.ends.last);
        let same = Link::behind(ends.last);
        let node = Node {
            message: Message { mtype, text },
            arrival,
            same,
        };
        let key = insert_reserved(&mut self.nodes, node);
        self.ends = append(&mut self.nodes, Chain::Arrival, self.ends, key);
        let ends = append(&mut self.nodes, Chain::Same, ends, key);
        self.types.put(spot, ends);
        self.other = self.other.or_of(is_first_other, key);
    }

    /// Whether a message of this type would be the first of another type than the first message.
    #[inline(always)]
    fn is_first_other(&self, mtype: i64) -> bool
        ensures { result ≡ is_first_other mtype self.now.placed }
    {
        match self.ends.first.get() {
            None => false,
            Some(first) => !self.other.is_some() && is_other_at(&self.nodes, first, mtype),
        }
    }

    /// Gives up what was reserved for one message.
    pub fn free_one(&mut self)
        requires { 0 < self.old.reserved }
        ensures { self.new ≡ record self.old { reserved = self.old.reserved - 1 } }
    {
        self.reserved -= 1; // no message came for it
    }

    /// The place of the message that a receiver takes, and the length of its text in bytes (msgop(2), msgrcv;
    /// POSIX.1-2017 XSH msgrcv). `msgtyp` 0 chooses the first message; above 0 the first of that type, or with
    /// `except`, MSG_EXCEPT, the first of another type; below 0 the first of the lowest type that is at most
    /// the absolute value. That of `i64::MIN` counts as `i64::MAX`, and `except` counts only where `msgtyp` is
    /// above 0.
    pub fn choose(&self, msgtyp: i64, except: bool) -> Option<(usize, usize)>
        ensures none { IsNone result ↔ IsNone (select (contents self.now) msgtyp except) }
        ensures place { IfSome result (λ c. position_of self.now c.0
            ≡ select (contents self.now) msgtyp except) }
        ensures there { IfSome result (λ c. IsSome (position_of self.now c.0)) }
        ensures len { option_map (λ c. c.1) result
            ≡ option_map (λ m. length m.text) (selected (contents self.now) msgtyp except) }

        // Whatever the places are, no two messages have the same.
        ensures distinct { AllPairs (λ a b. a.place ≢ b.place) self.now.placed }
    {
        let place = self.select(msgtyp, except)?;
        Some((place, self.len_at(place)))
    }

    /// The place of the message that a receiver takes.
    fn select(&self, msgtyp: i64, except: bool) -> Option<usize>
        ensures chooses { Chooses self.now result (select (contents self.now) msgtyp except) }
        ensures distinct { AllPairs (λ a b. a.place ≢ b.place) self.now.placed }
    {
        if msgtyp == 0 {
            self.ends.first.get()
        } else if msgtyp > 0 {
            if except {
                self.first_of_another(msgtyp)
            } else {
                self.types.ends_at(self.types.seek(msgtyp)).first.get()
            }
        } else {
            let (mtype, ends) = self.types.least()?;
            if mtype <= magnitude(msgtyp) {
                ends.first.get()
            } else {
                None
            }
        }
    }

    /// The place of the first message of another type than this.
    fn first_of_another(&self, mtype: i64) -> Option<usize>
        ensures { result ≡ first_place (other_type mtype) self.now.placed }
    {
        let first = self.ends.first.get()?;
        if is_other_at(&self.nodes, first, mtype) {
            Some(first)
        } else {
            self.other.get()
        }
    }

    /// The place of the first message of another type than the first message, once a message is taken: the same one, or
    /// one behind it. So all that are taken make it pass each message once.
    #[inline(always)]
    fn other_left(&self, taken: usize) -> Place
        ensures { result ≡ other_of (without taken self.now.placed) }
    {
        let Some(other) = self.other.get() else {
            return Place::none();
        };
        let Some(first) = self.ends.first.get() else {
            return Place::none();
        };
        if other == taken {
            first_unlike_behind(&self.nodes, other, first)
        } else if is_followed(&self.nodes, first, taken, other) {
            first_unlike_behind(&self.nodes, other, other)
        } else {
            self.other
        }
    }

    /// The length of the text at a place.
    fn len_at(&self, place: usize) -> usize
        requires { IsSome (position_of self.now place) }
        ensures { IfSome (position_of self.now place) (λ i. option_map (λ m. length m.text)
            (slice_get (contents self.now) i) ≡ Some result) }
    {
        match self.nodes.get(place) {
            Some(node) => node.message.text.len(),
            None => unreachable!(),
        }
    }

    /// Takes the message of a place out: its type and its text (msgop(2), msgrcv). The others stay in their
    /// order; their places may be others from then on.
    pub fn take(&mut self, place: usize) -> (i64, Items<u8>)
        requires { IsSome (position_of self.old place) }
        ensures message { IfSome (position_of self.old place) (λ i. slice_get (contents self.old) i
            ≡ Some (record { mtype = result.0; text = result.1 })) }
        ensures rest { IfSome (position_of self.old place) (λ i. contents self.new
            ≡ remove (contents self.old) i) }
        ensures qbytes { self.new.qbytes ≡ self.old.qbytes }
        ensures reserved { self.new.reserved ≡ self.old.reserved }
    {
        self.other = self.other_left(place);
        let Node {
            message,
            arrival,
            same,
        } = self.nodes.try_remove(place).unwrap();
        let Message { mtype, text } = message;
        self.ends = unlink(&mut self.nodes, Chain::Arrival, self.ends, arrival);
        let spot = self.types.seek(mtype);
        let ends = unlink(&mut self.nodes, Chain::Same, self.types.ends_at(spot), same);
        self.types.put(spot, ends);
        self.types.trim();
        self.bytes -= text.len() as u64;
        (mtype, text)
    }

    /// The number of messages (msgctl(2), msg_qnum).
    pub fn count(&self) -> usize
        ensures { result ≡ length (contents self.now) }
    {
        self.nodes.len()
    }

    /// The bytes of all texts (msgctl(2), msg_cbytes).
    pub fn bytes(&self) -> u64
        ensures { result ≡ bytes_of (contents self.now) }
    {
        self.bytes
    }

    /// The most bytes, and the most messages, that the queue may hold (msgctl(2), msg_qbytes).
    pub fn qbytes(&self) -> u64
        ensures { result ≡ self.now.qbytes }
    {
        self.qbytes
    }

    /// Sets `msg_qbytes` (msgctl(2), IPC_SET). It may be below what the queue holds: then nothing fits until
    /// enough was taken.
    pub fn set_qbytes(&mut self, qbytes: u64)
        ensures { self.new ≡ record self.old { qbytes = qbytes } }
    {
        self.qbytes = qbytes;
    }
}

/// Whether the bytes and messages that a queue holds leave room for a message of this length.
fn is_room(bytes: u64, count: u64, qbytes: u64, len: u64) -> bool
    ensures { result ≡ not (nat_lt qbytes (bytes + len) || nat_lt qbytes (count + 1)) }
{
    count < qbytes && bytes <= qbytes && len <= qbytes - bytes
}
