//! A client sleeps on the word of its own record, and is woken there.
ghost use Rattle.std.specs.Prelude.{◌<◌};
ghost use Rattle.pub_list.specs.Clients.{BelongsTo};

use crate::joined::Joined;
use crate::list::List;
use pub_rule::{PARKED, Served, state_word};
use std::sync::Wait;
use std::time::Duration;

impl<S: Served> Joined<S> {
    /// Sleeps if the own record is parked, until it is woken, and for no longer than `most`. It may also return for no
    /// reason, and tells nothing: the caller looks at its record then.
    pub fn sleep<R: Wait>(&self, rt: &R, list: &List<S>, most: Duration)
        requires { BelongsTo list.now self.now }
    {
        list.table
            .shared
            .park_timeout(rt, state_word(self.client), PARKED as u32, most);
    }
}

impl<S: Served> List<S> {
    /// Wakes the client, if it sleeps on its record.
    pub fn wake(&self, client: u32)
        requires { client < self.now.clients }
    {
        self.table.shared.wake_one(state_word(client));
    }
}
