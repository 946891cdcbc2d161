//! How far a publication record is.
ghost use Rattle.std.specs.Prelude.{◌≡◌, ◌≢◌, ◌<◌};
ghost use Rattle.pub_list.specs.Clients.{view, BelongsTo, IsSame};
ghost use Rattle.pub_list.specs.Records.{state_at, IsLooked};

use crate::joined::Joined;
use crate::list::List;
use crossbeam_utils::Backoff;
use pub_rule::{FREE, LookAt, LookOwn, PARKED, POSTED, Served, TAKEN, state_word};

/// How far a client's publication record is.
#[derive(Drop)]
pub enum WordState {
    /// The client asks nothing.
    Free,
    /// Its call is posted.
    Posted,
    /// A combiner has taken the record.
    Taken,
    /// The call is in the history, and has no reply yet.
    Parked,
    /// The answer lies in the record.
    Answered,
}

impl<S: Served> Joined<S> {
    /// How far the record of `client` is. Another client's may be further by the time that the caller reads this, so it
    /// tells nothing for sure. Of its own the caller learns what the history has, and whether its call is answered.
    pub fn look(&mut self, list: &List<S>, client: u32) -> WordState
        requires list { BelongsTo list.now self.old }
        requires client { client < list.now.clients }
        ensures client { IsSame self.old self.new }
        ensures own { client ≡ self.old.client → IsLooked S.legal S.own S.replies client (view self.old) (view self.new) result }
        ensures other { client ≢ self.old.client → view self.new ≡ view self.old }
    {
        if client == self.client {
            self.look_own(list)
        } else {
            self.look_at(list, client)
        }
    }

    /// Looks at the own record, at most so many times, until its call is answered or parked: while another client
    /// combines, it is that one which serves the call. The pauses between two looks grow, as each look takes the record's
    /// cache line from the one that serves. It tells nothing, and leaves the lock's cache line alone.
    pub fn linger(&self, list: &List<S>, looks: u32)
        requires { BelongsTo list.now self.now }
    {
        let table = &list.table.shared;
        let word = state_word(self.client);
        let backoff = Backoff::new();
        for _ in 0..looks {
            let found = table.peek(word);
            if found != POSTED && found != TAKEN {
                return;
            }
            backoff.spin();
        }
    }

    pub(crate) fn look_own(&mut self, list: &List<S>) -> WordState
        requires list { BelongsTo list.now self.old }
        ensures client { IsSame self.old self.new }
        ensures own { IsLooked S.legal S.own S.replies self.old.client (view self.old) (view self.new) result }
    {
        let table = &list.table.shared;
        state_of(table.load::<LookOwn>(&mut self.seat, state_word(self.client)))
    }

    fn look_at(&mut self, list: &List<S>, client: u32) -> WordState
        requires list { BelongsTo list.now self.old }
        requires client { client < list.now.clients }
        ensures client { IsSame self.old self.new }
        ensures view { view self.new ≡ view self.old }
    {
        let table = &list.table.shared;
        state_of(table.load::<LookAt>(&mut self.seat, state_word(client)))
    }
}

// What a state word says.
pub(crate) fn state_of(word: u64) -> WordState
    ensures { result ≡ state_at word }
{
    match word {
        FREE => WordState::Free,
        POSTED => WordState::Posted,
        TAKEN => WordState::Taken,
        PARKED => WordState::Parked,
        _ => WordState::Answered,
    }
}
