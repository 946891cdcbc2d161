//! One client tells another what it knows.
ghost use Rattle.std.specs.Prelude.{◌≡◌, true};
ghost use Rattle.pub_rule.specs.Work.{IsMarked};
ghost use Rattle.pub_list.specs.Clients.{work, BelongsTo, IsAsItWas, IsSame};
ghost use Rattle.pub_list.specs.Learning.{Learns};

use crate::joined::Joined;
use crate::list::List;
use pub_rule::{MergeToken, Served, SplitToken};

impl<S: Served> Joined<S> {
    /// Learns from another client of the list what it knows: that it has joined, and the history that it saw. The other
    /// knows afterwards what it knew.
    pub fn learn(&mut self, list: &List<S>, other: &mut Joined<S>)
        requires own { BelongsTo list.now self.old }
        requires other { BelongsTo list.now other.old }
        ensures client { IsSame self.old self.new }
        ensures learns { Learns S.legal S.own S.replies self.old other.old self.new }
        ensures other { IsAsItWas other.old other.new }
    {
        let token = list.table.shared.split_seat::<SplitToken>(&mut other.seat);
        list.table
            .shared
            .join_seat::<MergeToken>(&mut self.seat, token);
        self.look_own(list);
    }

    /// Hears of the last post of another client of the list. It learns all else that `learn` tells too.
    pub fn hear(&mut self, list: &List<S>, other: &mut Joined<S>)
        requires own { BelongsTo list.now self.old }
        requires other { BelongsTo list.now other.old }
        ensures client { IsSame self.old self.new }
        ensures learns { Learns S.legal S.own S.replies self.old other.old self.new }
        ensures other { IsAsItWas other.old other.new }
        ensures heard { IsMarked other.old.client (work other.old).posts (work self.new).heard }
    {
        self.learn(list, other);
    }

    /// Is told by another client of the list, where that knows it, that a combiner has dealt with the last post of its
    /// own. It learns all else that `learn` tells too.
    pub fn told(&mut self, list: &List<S>, other: &mut Joined<S>)
        requires own { BelongsTo list.now self.old }
        requires other { BelongsTo list.now other.old }
        ensures client { IsSame self.old self.new }
        ensures learns { Learns S.legal S.own S.replies self.old other.old self.new }
        ensures other { IsAsItWas other.old other.new }
        ensures past { IsMarked self.old.client (work self.old).posts (work other.old).passed → (work self.new).past ≡ true }
    {
        self.learn(list, other);
    }
}
