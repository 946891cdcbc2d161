//! A client walks the list, a record at a time.
ghost use Rattle.std.specs.Prelude.{◌≡◌, ◌≤◌};
ghost use Rattle.pub_rule.specs.Lists.{IsListOf, head_of, after};
ghost use Rattle.pub_rule.specs.Steps.{IsKnown};
ghost use Rattle.pub_list.specs.Clients.{view, seen, BelongsTo, IsStill, SeesAll, SeesFrom};
ghost use Rattle.pub_list.specs.Joined.{client_at};

use crate::joined::Joined;
use crate::list::List;
use pub_rule::{LoadHead, LoadNext, Served, head_word, next_word};

impl<S: Served> Joined<S> {
    /// The client at the head of the list, where a walk begins. The whole list is then known: all that had joined when
    /// the head was read.
    pub fn first(&mut self, list: &List<S>) -> Option<u32>
        requires { BelongsTo list.now self.old }
        ensures client { IsStill self.old self.new }
        ensures seen { SeesAll self.old self.new }
        ensures listed { IsListOf list.now.clients (seen self.new) }
        ensures first { result ≡ head_of (seen self.new) }
    {
        let link = list
            .table
            .shared
            .load::<LoadHead>(&mut self.seat, head_word());
        client_of(link)
    }

    /// The client that stands behind `client`, which is on the list as it was loaded or was told of by `learn`; `None`
    /// where it is the last.
    pub fn next(&mut self, list: &List<S>, client: u32) -> Option<u32>
        requires list { BelongsTo list.now self.old }
        requires known { IsKnown client (view self.old).walk }
        ensures client { IsStill self.old self.new }
        ensures seen { SeesFrom client self.old self.new }
        ensures listed { IsListOf list.now.clients (seen self.new) }
        ensures next { result ≡ head_of (after client (seen self.new)) }
    {
        let link = list
            .table
            .shared
            .load::<LoadNext>(&mut self.seat, next_word(client));
        client_of(link)
    }
}

// The client that a word of the list names.
fn client_of(link: u64) -> Option<u32>
    requires { link ≤ 64 }
    ensures { result ≡ client_at link }
{
    if link == 0 {
        None
    } else {
        Some((link - 1) as u32)
    }
}
