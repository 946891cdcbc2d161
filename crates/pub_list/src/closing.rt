//! The list is closed: each client is handed in, and the state comes back.
ghost use Rattle.std.specs.Prelude.{◌≡◌, false, [], ◌∷◌, length};
ghost use Rattle.pub_list.specs.Joined.{work};
ghost use Rattle.pub_rule.specs.Work.{IsAtHome};
ghost use Rattle.pub_rule.specs.WorkClosing.{last_told};
ghost use Rattle.pub_list.specs.Closing.{told_at_close, IsCloser, last_words, AreTrue, list_of, work_of};

use crate::combining::state_in;
use crate::fresh::Fresh;
use crate::joined::Joined;
use crate::list::{List, Records, Seat};
use pub_rule::{EnterCloser, GiveSlot, MergeClient, Served, head_word, state_word};

/// A list that is closed: no thread shares it any more.
#[derive(Drop)]
pub struct Closing<S: Served> {
    pub(crate) table: Records<S>,
    pub(crate) closer: Seat<S>,
    pub(crate) clients: u32,
    ghost own: { IsCloser table.shared.table_id table.shared.key.0 clients closer },
}

/// A client that is handed in.
#[derive(Drop)]
pub enum End<S: Served> {
    /// One that hasn't joined.
    Fresh(Fresh<S>),
    /// One that has.
    Joined(Joined<S>),
}

impl<S: Served> List<S> {
    /// Closes the list, to which its clients have to be handed in.
    pub fn closing(self) -> Closing<S>
        ensures clients { result.clients ≡ self.clients }
        ensures list { result.table.shared.table_id ≡ self.table.shared.table_id }
        ensures told { told_at_close result.closer ≡ [] }
    {
        let List { table, clients } = self;
        let (_, closer) = table.shared.load_new_seat::<EnterCloser>(head_word());
        Closing {
            table,
            closer,
            clients,
        }
    }
}

impl<S: Served> Closing<S> {
    /// Hands in a client of the list, which doesn't combine; its call may be in flight.
    pub fn add(&mut self, end: End<S>)
        requires list { list_of end ≡ self.old.table.shared.table_id }
        requires unheld { (work_of end).holds ≡ false }
        ensures clients { self.new.clients ≡ self.old.clients }
        ensures list { self.new.table.shared.table_id ≡ self.old.table.shared.table_id }
        ensures told { told_at_close self.new.closer ≡ last_words (work_of end) ∷ told_at_close self.old.closer }
    {
        match end {
            End::Fresh(fresh) => {
                let Fresh { seat, .. } = fresh;
                self.merge(seat);
            }
            End::Joined(joined) => {
                let Joined { mut seat, client } = joined;
                let table = &self.table;
                table.shared.load::<GiveSlot>(&mut seat, state_word(client));
                self.merge(seat);
            }
        }
    }

    // Takes in the seat of a client, whose slot is at home.
    fn merge(&mut self, seat: Seat<S>)
        requires list { seat.table_id ≡ self.old.table.shared.table_id }
        requires home { IsAtHome (work seat).stage × (seat.me.1 ≡ []) }
        requires unheld { (work seat).holds ≡ false }
        ensures clients { self.new.clients ≡ self.old.clients }
        ensures list { self.new.table.shared.table_id ≡ self.old.table.shared.table_id }
        ensures told { told_at_close self.new.closer ≡ last_told (work seat) ∷ told_at_close self.old.closer }
    {
        let table = &self.table;
        table
            .shared
            .join_seat::<MergeClient>(&mut self.closer, seat);
    }

    /// The state, after each client of the list was handed in: its history is as they told.
    pub fn end(self) -> S
        requires { length (told_at_close self.closer) ≡ self.clients }
        ensures legal { S.legal (S.history result) }
        ensures told { AreTrue S.own S.replies (S.history result) (told_at_close self.closer) }
    {
        let Closing {
            table,
            closer,
            clients,
        } = self;
        let mut closed = table.close_with(closer);
        for client in 0..clients as usize {
            drop(closed.take(client));
        }
        let state = closed.take(clients as usize);
        closed.free();
        state_in(state)
    }
}
