//! A queue as a plain list that is walked, and random lists of calls that `Queue` answers as it does.

ghost use Rattle.std.specs.Prelude.{◌≡◌, ◌+◌, IfOk, OnOk, OnErr, length};

use ipc_call::{Items, Memory};
use msg_queue::Queue;
use std::alloc::Global;
use std::process::Abort;
use std::test::Fail;
use test_support::numbers::Numbers;

/// The types and texts of messages, in order of arrival.
#[derive(Drop)]
struct List {
    messages: Vec<(i64, Vec<u8>)>,
    qbytes: usize,
}

impl List {
    fn new(alloc: Global, qbytes: usize) -> List {
        List {
            messages: Vec::new(alloc),
            qbytes,
        }
    }

    fn bytes(&self) -> usize {
        let mut bytes = 0usize;
        for (_, text) in self.messages.iter() {
            bytes = bytes.saturating_add(text.len());
        }
        bytes
    }

    fn fits(&self, len: usize) -> bool {
        self.bytes().saturating_add(len) <= self.qbytes && self.messages.len() < self.qbytes
    }

    /// The least type that is at most a bound.
    fn least(&self, bound: i64) -> Option<i64> {
        let mut least = None;
        for (mtype, _) in self.messages.iter() {
            if *mtype <= bound && least.is_none_or(|other| *mtype < other) {
                least = Some(*mtype);
            }
        }
        least
    }

    /// Where the message stands that a receiver takes.
    fn position(&self, msgtyp: i64, except: bool) -> Option<usize> {
        if msgtyp == 0 {
            self.messages.iter().position(|_| true)
        } else if msgtyp > 0 {
            self.messages.iter().position(|m| (m.0 == msgtyp) != except)
        } else {
            let least = self.least(msgtyp.saturating_neg())?;
            self.messages.iter().position(|m| m.0 == least)
        }
    }

    fn receive(&mut self, msgtyp: i64, except: bool) -> Option<(i64, Vec<u8>)> {
        let position = self.position(msgtyp, except)?;
        if position < self.messages.len() {
            Some(self.messages.remove(position))
        } else {
            None
        }
    }
}

/// A queue and a list that had the same calls.
#[derive(Drop)]
struct Pair {
    queue: Queue,
    list: List,
}

/// Room for a message is asked for twice, and given back once.
fn reserve_twice(queue: &mut Queue) -> Result<(), Memory>
    ensures ok { OnOk result (queue.new ≡ record queue.old { reserved = queue.old.reserved + 1 }) }
    ensures err { OnErr result (queue.new ≡ queue.old) }
{
    queue.reserve_one()?;
    if queue.reserve_one().is_ok() {
        queue.free_one();
    }
    Ok(())
}

/// A text for each of a pair.
fn texts(alloc: Global, byte: u8, len: usize) -> Result<(Items<u8>, Vec<u8>), Memory>
    ensures { IfOk result (λ texts. length texts.0 ≡ len) }
{
    let text = vec![in alloc; byte; len]?;
    Ok((Items::new(text), vec![in alloc; byte; len]?))
}

impl Pair {
    /// A message of this type and so many bytes is sent to both. Whether both have or lack room for it. Where an
    /// allocation fails neither gets it.
    fn send(&mut self, alloc: Global, mtype: i64, byte: u8, len: usize) -> bool {
        let Ok((text, copy)) = texts(alloc, byte, len) else {
            return true;
        };
        if self.list.messages.reserve(1).is_err() || reserve_twice(&mut self.queue).is_err() {
            return true;
        }
        let fits = self.list.fits(len);
        if !self.queue.fits(len) {
            self.queue.free_one();
            return !fits;
        }
        self.queue.put(mtype, text);
        self.list.messages.push((mtype, copy)).is_ok() && fits
    }

    /// A message is received from both. Whether both give the same one, or none.
    fn receive(&mut self, msgtyp: i64, except: bool) -> bool {
        let chosen = self.queue.choose(msgtyp, except);
        match (chosen, self.list.receive(msgtyp, except)) {
            (None, None) => true,
            (Some((place, len)), Some((mtype, text))) => {
                let taken = self.queue.take(place);
                len == text.len() && taken.0 == mtype && taken.1.as_slice() == text.as_slice()
            }
            _ => false,
        }
    }

    /// Whether both hold as many messages and bytes.
    fn is_alike(&self) -> bool {
        self.queue.count() == self.list.messages.len()
            && self.queue.bytes() == self.list.bytes() as u64
    }
}

/// A type, mostly one of few.
fn any_type(numbers: &mut Numbers) -> i64 {
    match numbers.below(16) {
        0 => i64::MAX,
        1 => i64::from(numbers.below(1000)) + 1,
        _ => i64::from(numbers.below(5)) + 1,
    }
}

/// What a receiver asks for: 0, a type, a negative bound, or MSG_EXCEPT.
fn any_msgtyp(numbers: &mut Numbers) -> (i64, bool) {
    let mtype = any_type(numbers);
    match numbers.below(8) {
        0 => (0, false),
        1 => (i64::MIN, false),
        2 | 3 => (mtype.saturating_neg(), false),
        4 | 5 => (mtype, true),
        _ => (mtype, false),
    }
}

/// One call on both, and whether they answered alike.
fn call(pair: &mut Pair, alloc: Global, numbers: &mut Numbers) -> bool {
    let kind = numbers.below(16);
    if kind == 0 {
        let qbytes = numbers.below(40);
        pair.queue.set_qbytes(u64::from(qbytes));
        pair.list.qbytes = qbytes as usize;
        return true;
    }
    if kind < 9 {
        let mtype = any_type(numbers);
        let byte = numbers.below(256) as u8;
        let len = numbers.below(4) as usize;
        return pair.send(alloc, mtype, byte, len);
    }
    let (msgtyp, except) = any_msgtyp(numbers);
    pair.receive(msgtyp, except)
}

#[test]
fn a_queue_answers_as_a_list(rt: HostRuntime) -> Result<(), Fail> {
    let alloc = rt.alloc();
    let mut numbers = Numbers::new(38);
    for list in 0..1000 {
        let mut pair = Pair {
            queue: Queue::new(alloc, 30),
            list: List::new(alloc, 30),
        };
        for _ in 0..60 {
            let is_same = call(&mut pair, alloc, &mut numbers) && pair.is_alike();
            assert!(rt; is_same, "in list {list}");
        }
    }
    Ok(())
}

#[test]
fn types_200_down_to_1_come_out_in_order(rt: HostRuntime) -> Result<(), Fail> {
    let alloc = rt.alloc();
    let mut pair = Pair {
        queue: Queue::new(alloc, 200),
        list: List::new(alloc, 200),
    };
    for below in 0..200 {
        let is_sent = pair.send(alloc, 200i64.saturating_sub(below), 1, 1);
        assert!(rt; is_sent);
    }
    for wanted in 1..=200 {
        let least = pair.list.least(200);
        assert!(rt;
            least == Some(wanted) && pair.receive(-200, false),
            "at {wanted}"
        );
    }
    Ok(())
}
