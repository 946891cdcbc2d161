// A namespace that keeps its journal whole.

ghost use Rattle.std.specs.Prelude.{◌≡◌, ◌+◌, ◌<◌, ◌≤◌, false, [], length, map, vec_len, IsTrue, IfOk, OnOk, OnErr};
ghost use Rattle.ipc_call.specs.Limits.{are_in_range};
ghost use Rattle.ipc_model.specs.State.{is_waiting as waits};
ghost use Rattle.ipc_model.specs.Step.{Stepped};
ghost use Rattle.ipc_history.specs.History.{run, rows_of, IsLegal, with_event, next_step};
ghost use Rattle.ipc_model.specs.Segments.{AreAttached};
ghost use Rattle.ipc_model.specs.Listings.{lines_of};
ghost use Rattle.ipc_history.specs.Waits.{AreInTime, AreNotReady, ArePermitted, WaitOnce};
ghost use Rattle.ipc_space.specs.Spaces.{own_reply, other_replies};
ghost use Rattle.ipc_space.specs.Telling.{replies_in};

use crate::ledger::{Effects, Ledger};
use ipc_call::{Call, JournalRow, Limits, Memory, Row};
use ipc_creds::Creds;
use std::marker::Model;

/// A namespace with its clients and the journal of its events. It is its history: the events that it
/// has served since it was opened, from which all else follows.
#[derive(Debug, Drop)]
pub struct Space {
    pub(super) ledger: Ledger,
}

impl Model for Space {
    ghost use Rattle.std.specs.Prelude.{◌≡◌};
    ghost use Rattle.ipc_history.specs.History.{History};

    ghost Value = { History };

    ghost view = { λ s. s.ledger.history };

    ghost invariant = { λ s. s.ledger.given ≡ 0 };
}

impl Space {
    /// A namespace with these limits, each in its range, and 1 to 4,096 clients, numbered from 0 in the
    /// order of their credentials. It has no object, no waiting call and an empty journal, and its clock
    /// is at 0. Memory (ENOMEM) comes where an allocation fails: the credentials are kept twice, as they are at the start
    /// and as calls change them.
    pub fn start(limits: Limits, clients: Vec<Creds>) -> Result<Space, Memory>
        requires limits { IsTrue (are_in_range limits) }
        requires some { 1 ≤ vec_len clients }
        requires few { vec_len clients ≤ 4096 }
        ensures { IfOk result (λ space. space ≡ record { limits = limits; clients = clients.items; events = [] }) }
    {
        let ledger = Ledger::start(limits, clients)?;
        Ok(Space { ledger })
    }

    /// Serves a call of a client at a time in seconds, as the next event. The client is one of the
    /// namespace, and has no call that waits; it is none of the others that the event tells. Afterwards no waiting call is
    /// ready, each one's client has the rights that it needs, its deadline is above the clock, no client waits twice, and
    /// each segment that is marked for removal has an attachment. Memory (ENOMEM) comes where a growth was refused, and then nothing has changed, the
    /// clock and the journal included.
    #[tactic(auto, using(crate::proofs::Permitted::run_not_ready, crate::proofs::Permitted::run_permitted, crate::proofs::Permitted::run_in_time, crate::proofs::Permitted::run_attached, crate::proofs::Once::waits_once))]
    pub fn apply(&mut self, client: u32, now: u64, call: Call) -> Result<Effects, Memory>
        requires known { client < length self.old.clients }
        requires free { waits (run self.old) client ≡ false }
        ensures event { OnOk result (self.new ≡ with_event self.old (record { client = client; now = now; call = call })) }
        ensures place { IfOk result (λ effects. effects.place ≡ length self.old.events + 1) }
        ensures own { IfOk result (λ effects.
            effects.own ≡ own_reply (length self.old.events + 1) (next_step self.old (record { client = client; now = now; call = call })).own) }
        ensures others { IfOk result (λ effects.
            effects.others.items ≡ other_replies (length self.old.events + 1) (next_step self.old (record { client = client; now = now; call = call })).ended) }
        ensures apart { IfOk result (λ effects. replies_in effects.others.items client ≡ []) }
        ensures legal { IsLegal self.new }
        ensures not_ready { AreNotReady (run self.new) }
        ensures permitted { ArePermitted (run self.new) }
        ensures in_time { AreInTime (run self.new) }
        ensures once { WaitOnce (run self.new) }
        ensures attached { AreAttached (run self.new).shared }
        ensures err { OnErr result (self.new ≡ self.old) }
    {
        self.ledger.apply(client, now, call)
    }

    /// How many clients there are, at most 4,096. They are numbered from 0.
    pub fn clients(&self) -> u32
        ensures count { result ≡ length self.now.clients }
        ensures few { result ≤ 4096 }
    {
        self.ledger.clients()
    }

    /// The credentials of the clients at the start, by which the journal is replayed. Calls that change credentials leave
    /// them as they were.
    pub fn opening(&self) -> &[Creds]
        ensures { result.now ≡ self.now.clients }
    {
        self.ledger.opening()
    }

    /// The number of events.
    pub fn events(&self) -> u64
        ensures { result ≡ length self.now.events }
    {
        self.ledger.events()
    }

    /// Whether a call of the client waits.
    pub fn is_waiting(&self, client: u32) -> bool
        ensures { result ≡ waits (run self.now) client }
    {
        self.ledger.namespace().is_waiting(client)
    }

    /// The clock in seconds: the latest time of an event, 0 before the first.
    pub fn clock(&self) -> u64
        ensures { result ≡ (run self.now).clock }
    {
        self.ledger.namespace().clock()
    }

    /// Each object, whoever may read it: the queues, the semaphore sets with their values, and the segments, each kind by
    /// rising slot. Memory (ENOMEM) comes where a growth was refused.
    pub fn lines(&self) -> Result<Vec<(Row, Vec<u16>)>, Memory>
        ensures { IfOk result (λ lines. map (λ line. (line.0, line.1.items)) lines.items ≡ lines_of (run self.now)) }
    {
        self.ledger.namespace().lines()
    }

    /// The journal, oldest row first.
    pub fn journal(&self) -> &[JournalRow]
        ensures rows { result.now ≡ rows_of self.now }
        ensures legal { IsLegal self.now }
    {
        self.ledger.rows()
    }

    /// The same namespace, of whose journal nothing was handed out yet, and can be from now on.
    pub fn into_ledger(self) -> Ledger
        ensures history { result.history ≡ self }
        ensures given { result.given ≡ 0 }
    {
        let Space { ledger } = self;
        ledger
    }
}

impl Ledger {
    /// The same namespace, which keeps its journal. Nothing of it was handed out.
    pub fn into_space(self) -> Space
        requires { self.given ≡ 0 }
        ensures { result ≡ self.history }
    {
        Space { ledger: self }
    }
}
