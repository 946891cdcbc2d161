//! A client that calls, and waits for the reply.
ghost use Rattle.std.specs.Prelude.{◌≡◌};
ghost use Rattle.std.specs.Arc.{arc_value};
ghost use Rattle.pub_rule.specs.WorkSteps.{asking};
ghost use Rattle.pub_list.specs.Clients.{work};
ghost use Rattle.ipc_combiner.specs.Asking.{HasCalled};

use crate::states::Member;
use ipc_call::{Call, Reply};
use std::sync::Wait;

impl Member {
    /// Posts a call at a time in seconds, and combines and looks at its own record until the call has ended. While another
    /// client combines or the call waits it spins, then yields the processor, and sleeps where the call has waited for long.
    /// It may never return: a call that waits ends by another client's call alone.
    pub fn call<R: Wait>(self, rt: &R, now: u64, call: Call) -> (Member, Reply)
        ensures service { arc_value result.0.service ≡ arc_value self.service }
        ensures client { result.0.idle.joined.client ≡ self.idle.joined.client }
        ensures done { HasCalled self.idle.joined.client (asking self.idle.joined.client (now, call) (work self.idle.joined)) (work result.0.idle.joined) result.1 }
    {
        let Member { service, idle } = self;
        let (idle, reply) = idle.call(rt, &*service, now, call);
        (Member { service, idle }, reply)
    }
}
