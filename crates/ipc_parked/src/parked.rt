// The calls that wait.

ghost use Rattle.std.specs.Prelude.{◌≡◌, ℕ, ◌<◌, ◌==◌, true, false, [], ◌∷◌, ◌++◌, length, option_copied, slice_get, OnOk, OnErr, Some, if◌then◌else◌};
ghost use Rattle.std.specs.Option.{option_map};
ghost use Rattle.ipc_call.specs.declared.calls.Kind.TheVariants as kinds;
ghost use Rattle.ipc_call.specs.declared.replies.Waiting.{Waiting as WaitingCall};
ghost use Rattle.ipc_model.specs.Cancelled.{waits_on as call_waits_on};
ghost use Rattle.ipc_model.specs.Decide.{is_reached, waits_at as call_waits_at};
ghost use Rattle.std.specs.List.{find};
ghost use Rattle.ipc_parked.specs.Parked.{
  is_there,
  arrival_of,
  others,
  waiting,
  entry_of,
  on_object as those_on_object,
  MayAsk,
  Answers,
  Picks,
  clients_on,
  comes_before,
  is_at,
  soonest_deadline,
};
ghost use Rattle.ipc_parked.specs.Deadlines.{dues_of, rows_at};
ghost use Rattle.ipc_parked.specs.Waits.{clients_at, without_first};

use crate::arrivals::Arrivals;
use crate::deadlines::{Deadlines, Due};
use crate::waits::Waits;
use ipc_call::{Call, Kind, Memory};
use std::alloc::Global;
use std::marker::Model;

/// A call that waits, and when it came.
#[derive(Debug, Drop)]
pub struct Arrival {
    /// The place, from 1, of the event that brought the call.
    pub place: u64,
    /// The call, which its client waits for (msgop(2)).
    pub call: Call,
    /// The second of the clock at which it ends, where it is one that waits no longer (semtimedop of semop(2)).
    pub deadline: Option<u64>,
}

/// The calls that wait, at most one of each client, in order of arrival. Holding them by client is the
/// project's own.
#[derive(Debug, Drop)]
pub struct Parked {
    arrivals: Arrivals,
    /// The deadlines of those that have one.
    deadlines: Deadlines,
    /// The clients whose calls wait on queues, by queue.
    queues: Waits,
    /// The clients whose calls wait on semaphore sets, by set.
    sets: Waits,
}

impl Model for Parked {
    ghost use Rattle.std.specs.Prelude.{ℕ, List};
    ghost use Rattle.ipc_parked.specs.declared.parked.Arrival.{Arrival};
    ghost use Rattle.ipc_call.specs.declared.calls.Kind.TheVariants.{Queue, Sems};
    ghost use Rattle.ipc_parked.specs.Arrivals.{IsLine, entries};
    ghost use Rattle.ipc_parked.specs.Deadlines.{AreDues};
    ghost use Rattle.ipc_parked.specs.Parked.{IsIndex};

    ghost Value = { List (ℕ × Arrival) };

    ghost view = { λ p. entries p.arrivals.stays };

    ghost invariant = { λ p. IsLine p.arrivals.next p.arrivals.stays × AreDues p.deadlines.rows p.arrivals.stays × IsIndex Queue p.queues.rows (entries p.arrivals.stays) × IsIndex Sems p.sets.rows (entries p.arrivals.stays) };
}

impl Parked {
    /// No call waits. Nothing is allocated.
    pub fn new(alloc: Global) -> Parked
        ensures { result ≡ [] }
    {
        Parked {
            arrivals: Arrivals::new(alloc),
            deadlines: Deadlines::new(alloc),
            queues: Waits::new(alloc),
            sets: Waits::new(alloc),
        }
    }

    /// The call of a client waits from now on, after those that are there, none of which is the client's. The
    /// error comes only where an allocation fails, and after 2^64 - 1 calls.
    pub fn park(&mut self, client: u32, arrival: Arrival) -> Result<(), Memory>
        requires free { is_there client self.old ≡ false }
        ensures ok { OnOk result (self.new ≡ self.old ++ (client, arrival) ∷ []) }
        ensures err { OnErr result (self.new ≡ self.old) }
    {
        let at = waits_at(&arrival.call);
        let deadline = arrival.deadline;
        reserve_row(&mut self.queues, &mut self.sets)?;
        self.deadlines.reserve_one()?;
        let number = self.arrivals.push(client, arrival)?;
        add_row(&mut self.queues, &mut self.sets, at, client);
        add_deadline(&mut self.deadlines, deadline, number, client);
        Ok(())
    }

    /// How many calls wait. Takes no memory.
    pub fn len(&self) -> usize
        ensures { result ≡ length self.now }
    {
        self.arrivals.len()
    }

    /// Whether a call of the client waits. Takes no memory.
    #[inline(always)]
    pub fn is_waiting(&self, client: u32) -> bool
        ensures { result ≡ is_there client self.now }
    {
        self.arrivals.contains(client)
    }

    /// The client's call that waits, with its place and its deadline. Takes no memory.
    pub fn get(&self, client: u32) -> Option<&Arrival>
        ensures { option_copied result ≡ arrival_of client self.now }
    {
        let stay = self.arrivals.get(client)?;
        Some(&stay.arrival)
    }

    /// The client's call, which waits. Takes no memory.
    pub fn call_of(&self, client: u32) -> &Call
        requires { is_there client self.now ≡ true }
        ensures { option_map (λ a. a.call) (arrival_of client self.now) ≡ Some result.now }
    {
        &self.arrivals.get(client).unwrap().arrival.call
    }

    /// The call at an index in order of arrival, from 0, with its client. Takes no memory.
    pub fn nth(&self, index: usize) -> Option<(u32, &Arrival)>
        ensures { option_map {U = WaitingCall} (λ found. entry_of (found.0, found.1.now)) result ≡ slice_get (waiting self.now) index }
    {
        let (client, stay) = self.arrivals.nth(index)?;
        Some((client, &stay.arrival))
    }

    /// The call at an index, from 0, in order of arrival among those that wait on the object of this kind and
    /// identifier, with its client. Those that wait elsewhere cost nothing. Takes no memory.
    fn nth_on(&self, kind: Kind, id: u32, index: usize) -> Option<(u32, &Arrival)>
        ensures { option_map {U = WaitingCall} (λ found. entry_of (found.0, found.1.now)) result ≡ slice_get (waiting (those_on_object kind id self.now)) index }
    {
        let client = self.client_on(kind, id, index)?;
        Some((client, &self.arrivals.get(client).unwrap().arrival))
    }

    /// Its client alone.
    pub(super) fn client_on(&self, kind: Kind, id: u32, index: usize) -> Option<u32>
        ensures { result ≡ slice_get (clients_on kind id self.now) index }
    {
        match kind {
            Kind::Queue => self.queues.nth(id, index),
            Kind::Sems => self.sets.nth(id, index),
            Kind::Segment => None,
        }
    }

    /// Whether a call may wait on the object of this kind and identifier: what is known without a search.
    #[inline(always)]
    pub(super) fn may_wait_on(&self, kind: Kind, id: u32) -> bool
        ensures { result ≡ false → those_on_object kind id self.now ≡ [] }
    {
        match kind {
            Kind::Queue => self.queues.may_wait(id),
            Kind::Sems => self.sets.may_wait(id),
            Kind::Segment => false,
        }
    }

    /// The soonest deadline of a waiting call. None where none has one. Takes no memory.
    #[inline(always)]
    pub fn soonest(&self) -> Option<u64>
        ensures { result ≡ soonest_deadline self.now }
    {
        self.deadlines.soonest()
    }

    /// Whether the call of a client came before that of another. Takes no memory.
    pub fn is_earlier(&self, client: u32, other: u32) -> bool
        requires client { is_there client self.now ≡ true }
        requires other { is_there other self.now ≡ true }
        ensures { result ≡ comes_before client other self.now }
    {
        let number = self.arrivals.get(client).unwrap().number;
        number < self.arrivals.get(other).unwrap().number
    }

    /// The client of the earliest waiting call whose deadline is reached at a second of the clock. Only calls whose deadline
    /// is reached cost more than the first test. Takes no memory.
    #[inline(always)]
    pub fn due(&self, clock: u64) -> Option<u32>
        ensures { result ≡ option_map (λ e. e.0) (find (λ e. is_reached clock e.1.deadline) self.now) }
    {
        if !is_due(self.soonest(), clock) {
            return None;
        }
        self.first_due(clock)
    }

    /// The same without a first test.
    fn first_due(&self, clock: u64) -> Option<u32>
        ensures { result ≡ option_map (λ e. e.0) (find (λ e. is_reached clock e.1.deadline) self.now) }
    {
        let row = self.deadlines.first_reached(clock)?;
        Some(row.client)
    }

    /// The client of the earliest call that waits on the object of this kind and identifier and passes the
    /// test, which is asked of those that wait on it and no other. Takes no memory but what the test takes.
    pub fn on_object<F: Fn(u32, &Call) -> bool>(&self, kind: Kind, id: u32, test: F) -> Option<u32>
        requires { MayAsk (F.pre test) (those_on_object kind id self.now) }
        ensures { Picks (Answers (F.post test)) (those_on_object kind id self.now) result }
    {
        for index in 0..self.len() {
            let (client, arrival) = self.nth_on(kind, id, index)?;
            if test(client, &arrival.call) {
                return Some(client);
            }
        }
        None
    }

    /// The client's call waits no longer, and the others keep their order. Takes no memory.
    pub fn finish(&mut self, client: u32) -> Call
        requires { is_there client self.old ≡ true }
        ensures call { option_map (λ a. a.call) (arrival_of client self.old) ≡ Some result }
        ensures rest { self.new ≡ others client self.old }
    {
        let stay = self.arrivals.remove(client);
        let at = waits_at(&stay.arrival.call);
        remove_row(&mut self.queues, &mut self.sets, at, client);
        remove_deadline(
            &mut self.deadlines,
            stay.arrival.deadline,
            stay.number,
            client,
        );
        stay.arrival.call
    }
}

/// Makes room for one more client on an object of either kind.
fn reserve_row(queues: &mut Waits, sets: &mut Waits) -> Result<(), Memory>
    ensures queues_room { OnOk result (0 < queues.new.spare) }
    ensures sets_room { OnOk result (0 < sets.new.spare) }
    ensures queues { queues.new.rows ≡ queues.old.rows }
    ensures sets { sets.new.rows ≡ sets.old.rows }
{
    queues.reserve_one()?;
    sets.reserve_one()
}

/// A client waits at an object, if any, after those that are there. There is room for it.
fn add_row(queues: &mut Waits, sets: &mut Waits, at: Option<(Kind, u32)>, client: u32)
    requires queues { 0 < queues.old.spare }
    requires sets { 0 < sets.old.spare }
    ensures queues { (i : ℕ) → clients_at i queues.new.rows ≡ (if is_at kinds.Queue i at then clients_at i queues.old.rows ++ client ∷ [] else clients_at i queues.old.rows) }
    ensures sets { (i : ℕ) → clients_at i sets.new.rows ≡ (if is_at kinds.Sems i at then clients_at i sets.old.rows ++ client ∷ [] else clients_at i sets.old.rows) }
{
    match at {
        Some((Kind::Queue, id)) => queues.add(id, client),
        Some((Kind::Sems, id)) => sets.add(id, client),
        Some((Kind::Segment, _)) | None => {}
    }
}

/// A client waits at an object, if any, no longer.
fn remove_row(queues: &mut Waits, sets: &mut Waits, at: Option<(Kind, u32)>, client: u32)
    ensures queues { (i : ℕ) → clients_at i queues.new.rows ≡ (if is_at kinds.Queue i at then without_first client (clients_at i queues.old.rows) else clients_at i queues.old.rows) }
    ensures sets { (i : ℕ) → clients_at i sets.new.rows ≡ (if is_at kinds.Sems i at then without_first client (clients_at i sets.old.rows) else clients_at i sets.old.rows) }
{
    match at {
        Some((Kind::Queue, id)) => queues.remove(id, client),
        Some((Kind::Sems, id)) => sets.remove(id, client),
        Some((Kind::Segment, _)) | None => {}
    }
}

/// The deadline of an arrival, if any, is there from now on. There is room for it.
fn add_deadline(deadlines: &mut Deadlines, deadline: Option<u64>, number: u64, client: u32)
    requires room { 0 < deadlines.old.spare }
    requires new { rows_at number deadlines.old.rows ≡ [] }
    ensures { (n : ℕ) → rows_at n deadlines.new.rows ≡ (if number == n then dues_of client number deadline else rows_at n deadlines.old.rows) }
{
    if let Some(deadline) = deadline {
        deadlines.add(Due {
            deadline,
            number,
            client,
        });
    }
}

/// The deadline of an arrival, if any, is there no longer.
fn remove_deadline(deadlines: &mut Deadlines, deadline: Option<u64>, number: u64, client: u32)
    requires { rows_at number deadlines.old.rows ≡ dues_of client number deadline }
    ensures { (n : ℕ) → rows_at n deadlines.new.rows ≡ (if number == n then [] else rows_at n deadlines.old.rows) }
{
    if let Some(deadline) = deadline {
        deadlines.remove(Due {
            deadline,
            number,
            client,
        });
    }
}

/// The kind and identifier of the object at which the call may wait: msgsnd and msgrcv at their queue (msgop(2)), semop
/// and semtimedop at their set (semop(2)).
fn waits_at(call: &Call) -> Option<(Kind, u32)>
    ensures { result ≡ call_waits_at call.now }
{
    match call {
        Call::MsgSnd { id, .. } | Call::MsgRcv { id, .. } => Some((Kind::Queue, *id)),
        Call::SemOp { id, .. } | Call::SemTimedOp { id, .. } => Some((Kind::Sems, *id)),
        _ => None,
    }
}

#[inline(always)]
fn is_due(deadline: Option<u64>, clock: u64) -> bool
    ensures { result ≡ is_reached clock deadline }
{
    match deadline {
        None => false,
        Some(deadline) => deadline <= clock,
    }
}

/// Whether the call waits at the object of this kind and identifier.
pub fn waits_on(kind: Kind, id: u32, call: &Call) -> bool
    ensures { result ≡ call_waits_on kind id call.now }
{
    let Some((at, other)) = waits_at(call) else {
        return false;
    };
    at == kind && other == id
}
