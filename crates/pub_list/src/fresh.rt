//! A client that hasn't joined.
ghost use Rattle.std.specs.Prelude.{◌≡◌};
ghost use Rattle.pub_list.specs.Fresh.{IsFresh};

use crate::list::Seat;
use pub_rule::Served;

/// A client that hasn't joined the list: its publication record stands on no list.
#[derive(Drop)]
pub struct Fresh<S: Served> {
    pub(crate) seat: Seat<S>,
    pub(crate) client: u32,
    ghost own: { IsFresh client seat },
}

impl<S: Served> Fresh<S> {
    /// The client's number, below that of the clients of its list.
    pub fn client(&self) -> u32
        ensures { result ≡ self.now.client }
    {
        self.client
    }
}
