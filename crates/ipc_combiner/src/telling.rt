//! One client tells another what it knows.
ghost use Rattle.std.specs.Prelude.{◌≡◌, true};
ghost use Rattle.pub_rule.specs.Work.{IsMarked};
ghost use Rattle.pub_list.specs.Clients.{work};
ghost use Rattle.ipc_combiner.specs.Telling.{AreOf, LearnsFrom};

use crate::states::{Idle, InFlight, Service};

impl Idle {
    /// Learns from another client what it knows: the history that it saw, its last post, and which posts a
    /// combiner is known to have dealt with. So a later call of this client comes after those that the other
    /// has seen.
    pub fn learn(&mut self, service: &Service, other: &mut Idle)
        requires { AreOf service.now.list self.old.joined other.old.joined }
        ensures { LearnsFrom service.now.list self.old.joined other.old.joined self.new.joined other.new.joined }
    {
        self.joined.learn(&service.list, &mut other.joined);
    }

    /// Hears of the call that another client posted: the next pass of this one serves it. It learns all else
    /// that `learn` tells too.
    pub fn hear(&mut self, service: &Service, other: &mut InFlight)
        requires { AreOf service.now.list self.old.joined other.old.joined }
        ensures learns { LearnsFrom service.now.list self.old.joined other.old.joined self.new.joined other.new.joined }
        ensures heard { IsMarked other.old.joined.client (work other.old.joined).posts (work self.new.joined).heard }
    {
        self.joined.hear(&service.list, &mut other.joined);
    }
}

impl InFlight {
    /// Is told by another client, where that knows it, that a combiner has dealt with this client's call: it
    /// has its answer, or waits. It learns all else that `learn` tells too.
    pub fn told(&mut self, service: &Service, other: &mut Idle)
        requires { AreOf service.now.list self.old.joined other.old.joined }
        ensures learns { LearnsFrom service.now.list self.old.joined other.old.joined self.new.joined other.new.joined }
        ensures past { IsMarked self.old.joined.client (work self.old.joined).posts (work other.old.joined).passed → (work self.new.joined).past ≡ true }
    {
        self.joined.told(&service.list, &mut other.joined);
    }
}
