//! The messages of a queue in a slab, each with its neighbours in order of arrival and within its type.

ghost use Rattle.std.specs.Prelude.{◌≡◌, ◌+◌, ◌<◌, ◌==◌, ◌&&◌, Some, None, if◌then◌else◌, is_some, IfSome};
ghost use Rattle.msg_queue.specs.Links.{
  appended_ends,
  first_place,
  is_other_in,
  is_place,
  message_in,
  next_at,
  next_set,
  no_ends,
  other_type,
  previous_set,
  unlinked_ends,
  unlinked_nodes,
  walk,
};
ghost use Rattle.slab.specs.Slab.{get, slab_len, HasRoomFor, Updates};

use crate::messages::Message;
use slab::Slab;
use std::marker::Model;

/// One of the two lists that a message stands in.
#[derive(Clone, Copy, Debug)]
pub(crate) enum Chain {
    /// That of all messages, in order of arrival.
    Arrival,
    /// That of its type, in the same order.
    Same,
}

/// The place of a message, or none, in one word: there are four in each node.
#[derive(Clone, Copy, Debug)]
pub(crate) struct Place {
    word: usize,
}

impl Model for Place {
    ghost use Rattle.std.specs.Prelude.{Option, ℕ};
    ghost use Rattle.msg_queue.specs.Words.{place_of, word_is, word_of};

    ghost Value = { Option ℕ };

    ghost view = { λ p. place_of p.word };

    ghost inverse = { λ o. record { word = word_of o } };

    ghost inverse_ok = { λ p h i. record { word = word_is p.word i } };
}

impl Place {
    /// No place.
    pub(crate) fn none() -> Place
        ensures { result ≡ None }
    {
        Place { word: usize::MAX }
    }

    /// The place of a key.
    fn of(key: usize) -> Place
        requires { key < 18446744073709551615 }
        ensures { result ≡ Some key }
    {
        Place { word: key }
    }

    /// The key, if this is a place.
    #[inline(always)]
    pub(crate) fn get(&self) -> Option<usize>
        ensures { result ≡ self.now }
    {
        if self.word == usize::MAX {
            None
        } else {
            Some(self.word)
        }
    }

    /// Whether this is the place of a key.
    #[inline(always)]
    pub(crate) fn is(&self, key: usize) -> bool
        ensures { result ≡ is_place self.now key }
    {
        match self.get() {
            None => false,
            Some(own) => own == key,
        }
    }

    /// The place of a key where that is asked for, else the same.
    #[inline(always)]
    pub(crate) fn or_of(self, is_asked: bool, key: usize) -> Place
        requires { key < 18446744073709551615 }
        ensures { result ≡ (if is_asked then Some key else self) }
    {
        if is_asked { Place::of(key) } else { self }
    }

    /// Whether this is a place.
    #[inline(always)]
    pub(crate) fn is_some(&self) -> bool
        ensures { result ≡ is_some self.now }
    {
        self.word != usize::MAX
    }
}

/// The places of a message's neighbours in a list.
#[derive(Clone, Copy, Debug)]
pub(crate) struct Link {
    pub(crate) previous: Place,
    pub(crate) next: Place,
}

impl Link {
    /// That of a message behind the last one.
    pub(crate) fn behind(last: Place) -> Link
        ensures { result ≡ record { previous = last; next = None } }
    {
        Link {
            previous: last,
            next: Place::none(),
        }
    }
}

/// The places of the first and the last message of a list.
#[derive(Clone, Copy, Debug)]
pub(crate) struct Ends {
    pub(crate) first: Place,
    pub(crate) last: Place,
}

impl Ends {
    /// Those of an empty list.
    pub(crate) fn none() -> Ends
        ensures { result ≡ no_ends }
    {
        Ends {
            first: Place::none(),
            last: Place::none(),
        }
    }
}

/// A message with its neighbours.
#[derive(Debug, Drop)]
pub(crate) struct Node {
    pub(crate) message: Message,
    pub(crate) arrival: Link,
    pub(crate) same: Link,
}

/// Sets what follows a place in a list.
fn set_next(nodes: &mut Slab<Node>, chain: Chain, at: Place, next: Place)
    ensures { nodes.new ≡ next_set chain nodes.old at next }
{
    let Some(key) = at.get() else {
        return;
    };
    if let Some(node) = nodes.get_mut(key) {
        match chain {
            Chain::Arrival => node.arrival.next = next,
            Chain::Same => node.same.next = next,
        }
    }
}

/// Sets what stands before a place in a list.
fn set_previous(nodes: &mut Slab<Node>, chain: Chain, at: Place, previous: Place)
    ensures { nodes.new ≡ previous_set chain nodes.old at previous }
{
    let Some(key) = at.get() else {
        return;
    };
    if let Some(node) = nodes.get_mut(key) {
        match chain {
            Chain::Arrival => node.arrival.previous = previous,
            Chain::Same => node.same.previous = previous,
        }
    }
}

/// Puts a node in, in room that was reserved. No slab has `usize::MAX` places, so its key is a place in one word.
pub(crate) fn insert_reserved(nodes: &mut Slab<Node>, node: Node) -> usize
    requires { HasRoomFor nodes.old 1 }
    ensures key { result < 18446744073709551615 }
    ensures was_vacant { get nodes.old result ≡ None }
    ensures updates { Updates nodes.old nodes.new result (Some node) }
    ensures len { slab_len nodes.new ≡ slab_len nodes.old + 1 }
    ensures capacity { nodes.new.capacity ≡ nodes.old.capacity }
{
    let key = nodes.insert_reserved(node);
    let _ = nodes.capacity();
    key
}

/// Joins the neighbours of a place that left a list.
#[inline(always)]
pub(crate) fn unlink(nodes: &mut Slab<Node>, chain: Chain, ends: Ends, gone: Link) -> Ends
    ensures nodes { nodes.new ≡ unlinked_nodes chain gone nodes.old }
    ensures ends { result ≡ unlinked_ends gone ends }
{
    set_next(nodes, chain, gone.previous, gone.next);
    set_previous(nodes, chain, gone.next, gone.previous);
    Ends {
        first: if gone.previous.is_some() {
            ends.first
        } else {
            gone.next
        },
        last: if gone.next.is_some() {
            ends.last
        } else {
            gone.previous
        },
    }
}

/// Makes a place that names the last one as its previous the last of a list.
#[inline(always)]
pub(crate) fn append(nodes: &mut Slab<Node>, chain: Chain, ends: Ends, key: usize) -> Ends
    requires { key < 18446744073709551615 }
    ensures nodes { nodes.new ≡ next_set chain nodes.old ends.last (Some key) }
    ensures ends { result ≡ appended_ends key ends }
{
    let place = Place::of(key);
    set_next(nodes, chain, ends.last, place);
    Ends {
        first: if ends.last.is_some() {
            ends.first
        } else {
            place
        },
        last: place,
    }
}

/// The place of the first message, from a place on in order of arrival, of another type than a message.
fn first_unlike(nodes: &Slab<Node>, first: Place, other: &Message) -> Place
    ensures { result ≡ first_place (other_type other.now.mtype) (walk (slab_len nodes.now) nodes.now first) }
{
    let mut at = first;
    for _ in 0..nodes.len() {
        let Some(place) = at.get() else {
            return Place::none();
        };
        let Some(node) = nodes.get(place) else {
            return Place::none();
        };
        if node.message.is_unlike(other) {
            return at;
        }
        at = node.arrival.next;
    }
    Place::none()
}

/// The place of the first message behind a place, in order of arrival, of another type than the message at another.
#[inline(never)]
pub(crate) fn first_unlike_behind(nodes: &Slab<Node>, place: usize, other: usize) -> Place
    ensures { IfSome (get nodes.now place) (λ node. IfSome (message_in nodes.now other) (λ message. result ≡ first_place (other_type message.mtype) (walk (slab_len nodes.now) nodes.now node.arrival.next))) }
{
    match (nodes.get(place), nodes.get(other)) {
        (Some(node), Some(other)) => first_unlike(nodes, node.arrival.next, &other.message),
        _ => Place::none(),
    }
}

/// Whether a place is this one, and followed by another in order of arrival.
#[inline(always)]
pub(crate) fn is_followed(nodes: &Slab<Node>, place: usize, this: usize, next: usize) -> bool
    ensures { result ≡ (place == this && is_place (next_at nodes.now place) next) }
{
    match nodes.get(place) {
        None => false,
        Some(node) => place == this && node.arrival.next.is(next),
    }
}

/// Whether the message at a place has another type than this. That of no message has none.
#[inline(always)]
pub(crate) fn is_other_at(nodes: &Slab<Node>, place: usize, mtype: i64) -> bool
    ensures { result ≡ is_other_in (message_in nodes.now place) mtype }
{
    match nodes.get(place) {
        None => false,
        Some(node) => node.message.is_other(mtype),
    }
}
