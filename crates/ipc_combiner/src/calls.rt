//! A client joins, asks, looks for the answer, and combines.
ghost use Rattle.std.specs.Prelude.{◌≡◌, ◌≤◌};
ghost use Rattle.pub_rule.specs.declared.work.Stage.TheVariants.{Free};
ghost use Rattle.pub_rule.specs.WorkSteps.{asking};
ghost use Rattle.pub_rule.specs.WorkSplits.{starting};
ghost use Rattle.pub_list.specs.Clients.{first_seen, tries, work};
ghost use Rattle.ipc_combiner.specs.Asking.{IsPolled, GateIsTold, HasTried};
ghost use Rattle.ipc_combiner.specs.States.{IsOf, IsUnjoinedOf};

use crate::states::{Idle, InFlight, Service, Unjoined};
use ipc_call::{Call, Reply};
use pub_list::{Answer, OpenGate, PassGate, WordState};

/// How often a client looks at its own record while another one combines, before it gives up this try.
const LOOKS: u32 = 8;

/// How far a call in flight is.
#[derive(Drop)]
pub enum Seen {
    /// It is posted.
    Posted,
    /// A combiner has taken it.
    Taken,
    /// It is in the history, and waits.
    Parked,
}

/// What a look for the answer gives.
#[derive(Drop)]
pub enum Polled {
    /// The call ended with this reply.
    Done(Idle, Reply),
    /// It is still in flight.
    Still(InFlight, Seen),
}

/// What came of one try to combine.
#[derive(Drop)]
pub enum Pass {
    /// The client served each posted record on the list.
    Passed,
    /// This other client combined, or took rows of the journal.
    Busy(u32),
}

impl Unjoined {
    /// Joins the service, in at most as many tries as it has clients.
    pub fn join(self, service: &Service) -> Idle
        requires { IsUnjoinedOf service.now.list self.fresh }
        ensures service { IsOf service.now.list result.joined }
        ensures client { result.joined.client ≡ self.fresh.client }
        ensures tries { (1 ≤ tries result.joined) × (tries result.joined ≤ service.now.list.clients) }
        ensures new { work result.joined ≡ starting (Free self.fresh.client) (first_seen self.fresh) }
    {
        Idle {
            joined: self.fresh.join(&service.list),
        }
    }
}

impl Idle {
    /// The client's number, from 0 in the order of the credentials.
    pub fn client(&self) -> u32
        ensures { result ≡ self.now.joined.client }
    {
        self.joined.client()
    }

    /// Posts a call at a time in seconds: whoever combines may serve it from now on.
    pub fn post(self, service: &Service, now: u64, call: Call) -> InFlight
        requires { IsOf service.now.list self.joined }
        ensures service { IsOf service.now.list result.joined }
        ensures client { result.joined.client ≡ self.joined.client }
        ensures posted { work result.joined ≡ asking self.joined.client (now, call) (work self.joined) }
    {
        let Idle { mut joined } = self;
        joined.post(&service.list, (now, call));
        InFlight { joined }
    }

    /// Tries once to combine, and serves each posted record where it could.
    pub fn combine(&mut self, service: &Service) -> Pass
        requires { IsOf service.now.list self.old.joined }
        ensures { HasTried service.now.list self.old.joined self.new.joined result }
    {
        self.combine_with(service, &OpenGate)
    }

    /// The same, and calls this gate between two records.
    pub fn combine_with<G: PassGate>(&mut self, service: &Service, gate: &G) -> Pass
        requires { IsOf service.now.list self.old.joined }
        ensures tried { HasTried service.now.list self.old.joined self.new.joined result }
        ensures gate { GateIsTold (G.was_told gate.now) service.now.list self.new.joined result }
    {
        let own = self.joined.client();
        match self.joined.combine_with(&service.list, gate) {
            Ok(()) => {
                self.joined.look(&service.list, own);
                Pass::Passed
            }
            Err(client) => Pass::Busy(client),
        }
    }
}

impl InFlight {
    /// Looks for the answer to the call.
    pub fn poll(self, service: &Service) -> Polled
        requires { IsOf service.now.list self.joined }
        ensures { IsPolled service.now.list self.joined result }
    {
        let InFlight { mut joined } = self;
        let own = joined.client();
        let seen = match joined.look(&service.list, own) {
            WordState::Posted => Seen::Posted,
            WordState::Taken => Seen::Taken,
            WordState::Parked => Seen::Parked,
            WordState::Answered => match joined.collect(&service.list) {
                Ok(Answer::Reply(reply)) => return Polled::Done(Idle { joined }, reply),
                Ok(Answer::Memory) => return Polled::Done(Idle { joined }, Reply::Memory),
                Err(_) => unreachable!(),
            },
            WordState::Free => unreachable!(),
        };
        Polled::Still(InFlight { joined }, seen)
    }

    /// Tries once to combine, and serves each posted record where it could. Where another client combines, it
    /// looks for a moment whether that one serves its call.
    pub fn combine(&mut self, service: &Service) -> Pass
        requires { IsOf service.now.list self.old.joined }
        ensures { HasTried service.now.list self.old.joined self.new.joined result }
    {
        self.combine_with(service, &OpenGate)
    }

    /// The same, and calls this gate between two records.
    pub fn combine_with<G: PassGate>(&mut self, service: &Service, gate: &G) -> Pass
        requires { IsOf service.now.list self.old.joined }
        ensures tried { HasTried service.now.list self.old.joined self.new.joined result }
        ensures gate { GateIsTold (G.was_told gate.now) service.now.list self.new.joined result }
    {
        match self.joined.combine_with(&service.list, gate) {
            Ok(()) => Pass::Passed,
            Err(client) => {
                self.joined.linger(&service.list, LOOKS);
                Pass::Busy(client)
            }
        }
    }
}
