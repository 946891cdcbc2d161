//! A client that calls, and waits for the reply.
ghost use Rattle.std.specs.Prelude.{◌≡◌};
ghost use Rattle.pub_rule.specs.WorkSteps.{asking};
ghost use Rattle.pub_list.specs.Clients.{work};
ghost use Rattle.ipc_combiner.specs.Asking.{HasCalled, IsFurther};
ghost use Rattle.ipc_combiner.specs.States.{IsOf};

use crate::calls::{Pass, Polled, Seen};
use crate::sleeping::Patience;
use crate::states::{Idle, InFlight, Service};
use ipc_call::{Call, Reply};
use std::sync::Wait;

impl Idle {
    /// Posts a call at a time in seconds, and combines and looks at its own record until the call has ended. A call that
    /// waits is in the history, so its client only looks from then on. While another client combines or the call waits it
    /// spins, then yields the processor, and sleeps where the call has waited for long. It may never return: a call that
    /// waits ends by another client's call alone.
    pub fn call<R: Wait>(self, rt: &R, service: &Service, now: u64, call: Call) -> (Idle, Reply)
        requires { IsOf service.now.list self.joined }
        ensures service { IsOf service.now.list result.0.joined }
        ensures client { result.0.joined.client ≡ self.joined.client }
        ensures done { HasCalled self.joined.client (asking self.joined.client (now, call) (work self.joined)) (work result.0.joined) result.1 }
    {
        let mut flight = self.post(service, now, call);
        let mut patience = Patience::new();
        let mut waits = false;
        for _ in rt.forever() {
            flight.help(service, waits);
            match flight.poll(service) {
                Polled::Done(idle, reply) => return (idle, reply),
                Polled::Still(still, seen) => {
                    flight = still;
                    waits = matches!(seen, Seen::Parked);
                }
            }
            flight.pause(rt, service, waits, &mut patience);
        }
        unreachable!()
    }
}

impl InFlight {
    // Tries once to combine, unless the call waits. Where it could, it wakes those whose calls it has ended.
    fn help(&mut self, service: &Service, waits: bool)
        requires { IsOf service.now.list self.old.joined }
        ensures service { IsOf service.now.list self.new.joined }
        ensures client { self.new.joined.client ≡ self.old.joined.client }
        ensures further { IsFurther (work self.old.joined) (work self.new.joined) }
    {
        if waits {
            return;
        }
        if let Pass::Passed = self.combine(service) {
            self.wake(service);
        }
    }
}
