//! A client joins, asks, looks for the answer, and combines.
ghost use Rattle.std.specs.Prelude.{◌≡◌, IfOk};
ghost use Rattle.std.specs.Arc.{arc_value};
ghost use Rattle.pub_rule.specs.WorkSteps.{asking};
ghost use Rattle.pub_list.specs.Clients.{work};
ghost use Rattle.ipc_combiner.specs.declared.closing.Client.TheVariants.{Idle as IdleClient, InFlight as ClientInFlight};
ghost use Rattle.ipc_combiner.specs.Asking.{HasTried};
ghost use Rattle.ipc_combiner.specs.Closing.{IsClientOf};
ghost use Rattle.ipc_combiner.specs.Parts.{TriedToTake};
ghost use Rattle.ipc_combiner.specs.States.{IsUnjoinedOf};
ghost use Rattle.ipc_combiner.specs.Telling.{LearnsFrom};
ghost use Rattle.ipc_member.specs.Members.{HasAdvanced, HasLooked};

use crate::states::{Member, Posted};
use ipc_call::{Call, JournalRow, Memory, Reply};
use ipc_combiner::{Client, Pass, Polled, Seen, Service, Unjoined, Untaken};
use std::alloc::Global;
use std::sync::Arc;

/// What a look for the answer gives.
#[derive(Drop)]
pub enum Looked {
    /// The call ended with this reply.
    Done(Member, Reply),
    /// It is still in flight.
    Still(Posted, Seen),
}

impl Member {
    /// A client joins its service, in at most as many tries as the service has clients. Memory (ENOMEM) is for a service
    /// with 2^63 - 1 holders.
    pub fn join(service: &Arc<Service, Global>, client: Unjoined) -> Result<Member, Memory>
        requires { IsUnjoinedOf (arc_value service.now).list client.fresh }
        ensures service { IfOk result (λ m. arc_value m.service ≡ arc_value service.now) }
        ensures client { IfOk result (λ m. m.idle.joined.client ≡ client.fresh.client) }
    {
        let service = Arc::try_clone(service)?;
        let idle = client.join(&*service);
        Ok(Member { service, idle })
    }

    /// The client's number, from 0 in the order of the credentials.
    pub fn client(&self) -> u32
        ensures { result ≡ self.now.idle.joined.client }
    {
        self.idle.client()
    }

    /// Posts a call at a time in seconds: whoever combines may serve it from now on.
    pub fn post(self, now: u64, call: Call) -> Posted
        ensures service { arc_value result.service ≡ arc_value self.service }
        ensures client { result.flight.joined.client ≡ self.idle.joined.client }
        ensures posted { work result.flight.joined ≡ asking self.idle.joined.client (now, call) (work self.idle.joined) }
    {
        let Member { service, idle } = self;
        let flight = idle.post(&*service, now, call);
        Posted { service, flight }
    }

    /// Tries once to combine, and serves each posted record where it could.
    pub fn combine(&mut self) -> Pass
        ensures service { arc_value self.new.service ≡ arc_value self.old.service }
        ensures tried { HasTried (arc_value self.old.service).list self.old.idle.joined self.new.idle.joined result }
    {
        let service = &*self.service;
        self.idle.combine(service)
    }

    /// Learns from another client of the same service what it knows, so that a later call of this client comes after those
    /// that the other has seen.
    pub fn learn(&mut self, other: &mut Member)
        requires { arc_value other.old.service ≡ arc_value self.old.service }
        ensures service { (arc_value self.new.service ≡ arc_value self.old.service) × (arc_value other.new.service ≡ arc_value other.old.service) }
        ensures learns { LearnsFrom (arc_value self.old.service).list self.old.idle.joined other.old.idle.joined self.new.idle.joined other.new.idle.joined }
    {
        let service = &*self.service;
        self.idle.learn(service, &mut other.idle);
    }

    /// Takes the rows of the journal from this one on, counted from 0, to its end: all that weren't handed out. It is 0 the first
    /// time, and then where the part before ended, so the parts join up.
    pub fn take_rows(&mut self, from: u64) -> Result<Vec<JournalRow>, Untaken>
        ensures service { arc_value self.new.service ≡ arc_value self.old.service }
        ensures taken { TriedToTake (arc_value self.old.service).list self.old.idle.joined self.new.idle.joined from result }
    {
        let service = &*self.service;
        self.idle.take_rows(service, from)
    }

    /// The client without its service, to be handed in as the service is closed.
    pub fn leave(self) -> Client
        ensures service { IsClientOf (arc_value self.service).list result }
        ensures client { result ≡ IdleClient self.idle }
    {
        let Member { service: _, idle } = self;
        Client::Idle(idle)
    }
}

impl Posted {
    /// Looks for the answer to the call.
    pub fn poll(self) -> Looked
        ensures { HasLooked self result }
    {
        let Posted { service, flight } = self;
        match flight.poll(&*service) {
            Polled::Done(idle, reply) => Looked::Done(Member { service, idle }, reply),
            Polled::Still(flight, seen) => Looked::Still(Posted { service, flight }, seen),
        }
    }

    /// Tries once to combine, and serves each posted record where it could. Where another client combines, it looks for a
    /// moment whether that one serves its call.
    pub fn combine(&mut self) -> Pass
        ensures service { arc_value self.new.service ≡ arc_value self.old.service }
        ensures tried { HasTried (arc_value self.old.service).list self.old.flight.joined self.new.flight.joined result }
    {
        let service = &*self.service;
        self.flight.combine(service)
    }

    /// Tries once to combine, and looks for the answer.
    #[tactic(auto, using(crate::proofs::Advancing::advanced))]
    pub fn advance(self) -> Looked
        ensures { HasAdvanced self result }
    {
        let mut posted = self;
        posted.combine();
        posted.poll()
    }

    /// The client without its service, to be handed in as the service is closed.
    pub fn leave(self) -> Client
        ensures service { IsClientOf (arc_value self.service).list result }
        ensures client { result ≡ ClientInFlight self.flight }
    {
        let Posted { service: _, flight } = self;
        Client::InFlight(flight)
    }
}
