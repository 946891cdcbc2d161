// Random lists of calls that wait, beside a list without an index, which goes over all calls for each answer: both
// answer the same.

use indexmap::IndexMap;
use ipc_call::{Call, Items, Kind};
use ipc_parked::{Arrival, Parked, Touched, waits_on};
use std::alloc::{AllocError, Global};
use std::process::Abort;
use std::test::Fail;
use test_support::calls::receive;
use test_support::numbers::Numbers;

/// The clients of a random list are below this number.
const CLIENTS: u32 = 8;

/// How many steps each list takes.
const STEPS: u64 = 40;

/// The calls that wait, by client and in order of arrival.
#[derive(Drop)]
struct Listed {
    arrivals: IndexMap<u32, Arrival>,
}

impl Listed {
    fn nth(&self, index: usize) -> Option<(u32, &Arrival)> {
        let (client, arrival) = self.arrivals.get_index(index)?;
        Some((*client, arrival))
    }

    fn nth_on(&self, kind: Kind, id: u32, index: usize) -> Option<(u32, &Arrival)> {
        let mut passed = index;
        for (client, arrival) in self.arrivals.iter() {
            if waits_on(kind, id, &arrival.call) {
                if passed == 0 {
                    return Some((*client, arrival));
                }
                passed -= 1;
            }
        }
        None
    }

    /// The earliest client, from one on, that waits at an object.
    fn on_object(&self, kind: Kind, id: u32, least: u32) -> Option<u32> {
        for (client, arrival) in self.arrivals.iter() {
            if waits_on(kind, id, &arrival.call) && least <= *client {
                return Some(*client);
            }
        }
        None
    }

    fn due(&self, clock: u64) -> Option<u32> {
        for (client, arrival) in self.arrivals.iter() {
            if arrival.deadline.is_some_and(|deadline| deadline <= clock) {
                return Some(*client);
            }
        }
        None
    }
}

fn any_kind(numbers: &mut Numbers) -> Kind {
    match numbers.below(7) {
        0 => Kind::Segment,
        number if number < 4 => Kind::Sems,
        _ => Kind::Queue,
    }
}

/// The lowest, the highest and other identifiers.
fn any_id(numbers: &mut Numbers) -> u32 {
    match numbers.below(4) {
        0 => 0,
        1 => 7,
        2 => u32::MAX - 1,
        _ => u32::MAX,
    }
}

/// A call that waits on a queue, on a set, or on no object.
fn any_call(alloc: Global, numbers: &mut Numbers) -> Call {
    let id = any_id(numbers);
    match numbers.below(5) {
        0 => Call::MsgSnd {
            id,
            mtype: 1,
            text: Items::new(Vec::new(alloc)),
            flags: 0,
        },
        1 => receive(id, 0),
        2 => Call::SemOp {
            id,
            ops: Items::new(Vec::new(alloc)),
        },
        3 => Call::SemTimedOp {
            id,
            ops: Items::new(Vec::new(alloc)),
            timeout: 5,
        },
        _ => Call::IpcRmid {
            kind: Kind::Queue,
            id,
        },
    }
}

fn any_deadline(numbers: &mut Numbers) -> Option<u64> {
    match numbers.below(12) {
        0 => Some(u64::MAX),
        second if second < 6 => Some(u64::from(second)),
        _ => None,
    }
}

/// Both lists, and the random numbers that change them.
#[derive(Drop)]
struct Both {
    parked: Parked,
    listed: Listed,
    numbers: Numbers,
}

fn is_same(found: Option<(u32, &Arrival)>, wanted: Option<(u32, &Arrival)>) -> bool {
    match (found, wanted) {
        (None, None) => true,
        (Some((client, arrival)), Some((other, wanted))) => {
            client == other
                && arrival.place == wanted.place
                && arrival.deadline == wanted.deadline
                && arrival.call == wanted.call
        }
        _ => false,
    }
}

impl Both {
    fn new(alloc: Global, seed: u64) -> Both {
        Both {
            parked: Parked::new(alloc),
            listed: Listed {
                arrivals: IndexMap::new(alloc),
            },
            numbers: Numbers::new(seed),
        }
    }

    /// The call of a client leaves both lists, and is the same.
    fn finish(&mut self, client: u32) -> bool {
        if !self.parked.is_waiting(client) {
            return false;
        }
        let place = match self.parked.get(client) {
            None => return false,
            Some(waiting) => waiting.place,
        };
        let told = self.parked.call_of(client).copy();
        let call = self.parked.finish(client);
        match self.listed.arrivals.shift_remove(&client) {
            None => false,
            Some(arrival) => {
                place == arrival.place && call == arrival.call && told.is_ok_and(|it| it == call)
            }
        }
    }

    /// A random call of a client comes to both lists, or to neither where the first has no memory.
    fn park(&mut self, alloc: Global, client: u32, place: u64) -> Result<(), AllocError> {
        let call = any_call(alloc, &mut self.numbers);
        let deadline = any_deadline(&mut self.numbers);
        let listed = Arrival {
            place,
            call: call.copy()?,
            deadline,
        };
        let arrival = Arrival {
            place,
            call,
            deadline,
        };
        if !self.parked.is_waiting(client) && self.parked.park(client, arrival).is_ok() {
            self.listed.arrivals.insert(client, listed)?;
        }
        Ok(())
    }

    /// The call of a random client leaves the lists, or one comes where it has none. Tells whether what left is the same.
    fn change(&mut self, alloc: Global, place: u64) -> Result<bool, AllocError> {
        let client = self.numbers.below(CLIENTS);
        if self.parked.is_waiting(client) {
            return Ok(self.finish(client));
        }
        self.park(alloc, client, place)?;
        Ok(true)
    }

    fn nth_on(&self, kind: Kind, id: u32, index: usize) -> Option<(u32, &Arrival)> {
        let client = self
            .parked
            .nth_touched(Touched::Object { kind, id }, index)?;
        Some((client, self.parked.get(client)?))
    }

    /// What is told of the calls on an object.
    fn agree_on(&self, kind: Kind, id: u32) -> bool {
        for index in 0..9 {
            if !is_same(
                self.nth_on(kind, id, index),
                self.listed.nth_on(kind, id, index),
            ) {
                return false;
            }
        }
        for least in 0..=CLIENTS {
            let found = self.parked.on_object(kind, id, |client, _| least <= client);
            if found != self.listed.on_object(kind, id, least) {
                return false;
            }
        }
        true
    }

    /// What is told of all calls.
    fn agree_on_all(&self) -> bool {
        for index in 0..9 {
            if !is_same(self.parked.nth(index), self.listed.nth(index)) {
                return false;
            }
        }
        self.parked.len() == self.listed.arrivals.len()
    }

    fn agree_on_deadlines(&self) -> bool {
        for clock in [0, 1, 2, 3, 4, 5, 6, u64::MAX - 1, u64::MAX] {
            if self.parked.due(clock) != self.listed.due(clock) {
                return false;
            }
        }
        true
    }

    /// What is told of a random object and of all calls.
    fn agree(&mut self) -> bool {
        let kind = any_kind(&mut self.numbers);
        let id = any_id(&mut self.numbers);
        self.agree_on(kind, id) && self.agree_on_all() && self.agree_on_deadlines()
    }
}

/// Whether both lists answer the same after each of the changes of a seed.
fn agrees(alloc: Global, seed: u64) -> Result<bool, AllocError> {
    let mut both = Both::new(alloc, seed);
    for place in 1..=STEPS {
        if !both.change(alloc, place)? || !both.agree() {
            return Ok(false);
        }
    }
    Ok(true)
}

#[test]
fn the_index_answers_as_the_list(rt: HostRuntime) -> Result<(), Fail> {
    for seed in 0..1000 {
        assert!(rt; agrees(rt.alloc(), seed)?, "{seed}");
    }
    Ok(())
}
