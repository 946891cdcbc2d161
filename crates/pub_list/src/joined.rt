//! A client that has joined.
ghost use Rattle.std.specs.Prelude.{◌≡◌};
ghost use Rattle.pub_list.specs.Joined.{IsJoined};

use crate::list::Seat;
use pub_rule::Served;

/// A client that has joined the list: its publication record stands on it. It can walk the records of those that have
/// joined.
#[derive(Drop)]
pub struct Joined<S: Served> {
    pub(crate) seat: Seat<S>,
    pub(crate) client: u32,
    ghost own: { IsJoined client seat },
}

impl<S: Served> Joined<S> {
    /// The client's number, below that of the clients of its list.
    pub fn client(&self) -> u32
        ensures { result ≡ self.now.client }
    {
        self.client
    }
}
