//! A client combines: it seizes the state, serves records, and releases the state.
ghost use Rattle.std.specs.Prelude.{◌≡◌, ◌<◌, true, false, IsTrue, IsFalse, IsNone, IfSome};
ghost use Rattle.pub_rule.specs.WorkSteps.{with_work, dealt, refusing};
ghost use Rattle.pub_list.specs.declared.asking.Answer.TheVariants as answers;
ghost use Rattle.pub_list.specs.declared.records.WordState.TheVariants as states;
ghost use Rattle.pub_rule.specs.declared.served.Slot.TheVariants as slots;
ghost use Rattle.pub_list.specs.Clients.{view, work, BelongsTo, IsSame};
ghost use Rattle.pub_list.specs.Combining.{
  IsCombining,
  IsOwed,
  OwesNothing,
  MayTake,
  MayAnswer,
  MayPark,
  TookPosted,
  HasMet,
  IsSeized,
  IsTook,
  IsAnswered,
  IsParked,
  IsReleased,
};

use crate::asking::Answer;
use crate::joined::Joined;
use crate::list::{List, Record, drop_empty, empty};
use crate::records::WordState;
use pub_rule::{
    ANSWERED, AnswerCall, PARKED, POSTED, ParkCall, PeekAt, PeekLock, RefuseCall, ReleaseState,
    SeizeState, Served, Slot, TAKEN, TakeParked, TakePosted, lock_word, state_word,
};

/// What came of taking a record.
#[derive(Drop)]
pub enum Took<C> {
    /// It was posted: its call.
    FromPosted(C),
    /// It was parked, and its client is owed a reply.
    FromParked,
    /// It was not taken: its word was another one.
    Not,
}

impl<S: Served> Joined<S> {
    /// Seizes the state, to combine. The error is the client that combines, which is another one. The caller doesn't
    /// combine.
    pub fn seize(&mut self, list: &List<S>) -> Result<S, u32>
        requires list { BelongsTo list.now self.old }
        requires unheld { (work self.old).holds ≡ false }
        ensures client { IsSame self.old self.new }
        ensures seized { IsSeized S.history S.legal list.now.clients self.old.client (view self.old) (view self.new) result }
    {
        match self.holder(list) {
            Some(client) => Err(client),
            None => self.try_seize(list),
        }
    }

    // The client that combines, if another one does. This load before the exchange leaves the lock's cache line
    // with those that look at it.
    fn holder(&mut self, list: &List<S>) -> Option<u32>
        requires list { BelongsTo list.now self.old }
        requires unheld { (work self.old).holds ≡ false }
        ensures client { IsSame self.old self.new }
        ensures none { IsNone result → view self.new ≡ view self.old }
        ensures some { IfSome result (λ c. HasMet list.now.clients self.old.client c (view self.old) (view self.new)) }
    {
        let table = &list.table.shared;
        let found = table.load::<PeekLock>(&mut self.seat, lock_word());
        if found == 0 {
            None
        } else {
            Some((found - 1) as u32)
        }
    }

    fn try_seize(&mut self, list: &List<S>) -> Result<S, u32>
        requires list { BelongsTo list.now self.old }
        requires unheld { (work self.old).holds ≡ false }
        ensures client { IsSame self.old self.new }
        ensures seized { IsSeized S.history S.legal list.now.clients self.old.client (view self.old) (view self.new) result }
    {
        let table = &list.table.shared;
        let number = u64::from(self.client) + 1;
        let found = table.compare_exchange::<SeizeState>(&mut self.seat, lock_word(), 0, number);
        if found != 0 {
            return Err((found - 1) as u32);
        }
        match table.exchange(&mut self.seat, list.clients as usize, empty::<S>()) {
            Slot::State(state) => Ok(state),
            _ => unreachable!(),
        }
    }

    /// Whether the record of `client` is posted. Where it isn't, a combiner has dealt with each post of this client
    /// that was heard of, as where a `take` fails. The caller combines, and has taken no record. This load before the
    /// exchange leaves the record's cache line with its client.
    pub fn is_posted(&mut self, list: &List<S>, client: u32) -> bool
        requires list { BelongsTo list.now self.old }
        requires client { client < list.now.clients }
        requires combines { IsCombining (view self.old) }
        ensures client { IsSame self.old self.new }
        ensures posted { IsTrue result → view self.new ≡ view self.old }
        ensures other { IsFalse result → view self.new ≡ with_work (dealt client (work self.old)) (view self.old) }
    {
        let table = &list.table.shared;
        table.load::<PeekAt>(&mut self.seat, state_word(client)) == POSTED
    }

    /// Takes the record of `client`, if its word is `from`: posted, or parked where the client is owed a reply. The
    /// caller combines, and has taken no other.
    pub fn take(&mut self, list: &List<S>, client: u32, from: WordState) -> Took<S::Call>
        requires list { BelongsTo list.now self.old }
        requires client { client < list.now.clients }
        requires combines { IsCombining (view self.old) }
        requires from { MayTake S.replies client (view self.old) from }
        ensures client { IsSame self.old self.new }
        ensures took { IsTook S.own S.replies client (view self.old) (view self.new) from result }
    {
        match from {
            WordState::Posted => self.take_posted(list, client),
            WordState::Parked => self.take_parked(list, client),
            _ => unreachable!(),
        }
    }

    fn take_posted(&mut self, list: &List<S>, client: u32) -> Took<S::Call>
        requires list { BelongsTo list.now self.old }
        requires client { client < list.now.clients }
        requires combines { IsCombining (view self.old) }
        ensures client { IsSame self.old self.new }
        ensures took { IsTook S.own S.replies client (view self.old) (view self.new) states.Posted result }
    {
        let table = &list.table.shared;
        let found = table.compare_exchange::<TakePosted>(
            &mut self.seat,
            state_word(client),
            POSTED,
            TAKEN,
        );
        if found != POSTED {
            return Took::Not;
        }
        match table.exchange(&mut self.seat, client as usize, empty::<S>()) {
            Slot::Call(call) => Took::FromPosted(call),
            _ => unreachable!(),
        }
    }

    fn take_parked(&mut self, list: &List<S>, client: u32) -> Took<S::Call>
        requires list { BelongsTo list.now self.old }
        requires client { client < list.now.clients }
        requires combines { IsCombining (view self.old) }
        requires owed { IsOwed S.replies client (view self.old) }
        ensures client { IsSame self.old self.new }
        ensures took { IsTook S.own S.replies client (view self.old) (view self.new) states.Parked result }
    {
        list.table
            .shared
            .compare_exchange::<TakeParked>(&mut self.seat, state_word(client), PARKED, TAKEN);
        Took::FromParked
    }

    /// Answers the record of `client`, which the caller took, and gives `state` back. To a posted call the state has
    /// one event more, that call, and the reply is the one that it brings its client; or the answer is Memory, and the
    /// state has no event more. To a parked call the reply is the last that its client has in the history.
    pub fn answer(&mut self, list: &List<S>, client: u32, answer: Answer<S::Reply>, state: S) -> S
        requires list { BelongsTo list.now self.old }
        requires combines { (work self.old).holds ≡ true }
        requires answer { MayAnswer S.history S.legal S.client S.call list.now.clients client (view self.old) state S.replies answer }
        ensures client { IsSame self.old self.new }
        ensures answered { IsAnswered S.history client (view self.old) (view self.new) state answer }
        ensures state { result ≡ state }
    {
        match answer {
            Answer::Reply(reply) => self.reply(list, client, reply, state),
            Answer::Memory => {
                self.refuse(list, client);
                state
            }
        }
    }

    fn reply(&mut self, list: &List<S>, client: u32, reply: S::Reply, state: S) -> S
        requires list { BelongsTo list.now self.old }
        requires combines { (work self.old).holds ≡ true }
        requires answer { MayAnswer S.history S.legal S.client S.call list.now.clients client (view self.old) state S.replies (answers.Reply reply) }
        ensures client { IsSame self.old self.new }
        ensures answered { IsAnswered S.history client (view self.old) (view self.new) state (answers.Reply reply) }
        ensures state { result ≡ state }
    {
        let table = &list.table.shared;
        drop_empty::<S>(table.exchange(&mut self.seat, client as usize, Slot::Reply(reply)));
        let announced = Slot::State(state);
        table.compare_exchange_with::<AnswerCall>(
            &mut self.seat,
            state_word(client),
            TAKEN,
            ANSWERED,
            &announced,
        );
        state_in(announced)
    }

    fn refuse(&mut self, list: &List<S>, client: u32)
        requires list { BelongsTo list.now self.old }
        requires took { TookPosted client (view self.old) }
        ensures client { IsSame self.old self.new }
        ensures refused { view self.new ≡ with_work (refusing client (work self.old)) (view self.old) }
    {
        let table = &list.table.shared;
        drop_empty::<S>(table.exchange(&mut self.seat, client as usize, Slot::Memory));
        table.store::<RefuseCall>(&mut self.seat, state_word(client), ANSWERED);
    }

    /// Leaves the record of `client` parked, which the caller took from posted, and gives `state` back: it has one
    /// event more, that call, which brings its client no reply yet.
    pub fn mark_parked(&mut self, list: &List<S>, client: u32, state: S) -> S
        requires list { BelongsTo list.now self.old }
        requires combines { (work self.old).holds ≡ true }
        requires park { MayPark S.history S.legal S.client S.call list.now.clients client (view self.old) state S.own S.replies }
        ensures client { IsSame self.old self.new }
        ensures parked { IsParked S.history client (view self.old) (view self.new) state }
        ensures state { result ≡ state }
    {
        let announced = Slot::State(state);
        list.table.shared.compare_exchange_with::<ParkCall>(
            &mut self.seat,
            state_word(client),
            TAKEN,
            PARKED,
            &announced,
        );
        state_in(announced)
    }

    /// Gives the state back to the list. The caller combines, has taken no record, and owes nobody a reply.
    pub fn release(&mut self, list: &List<S>, state: S)
        requires list { BelongsTo list.now self.old }
        requires combines { IsCombining (view self.old) }
        requires state { S.history state ≡ (work self.old).seen }
        requires owed { OwesNothing S.replies list.now.clients (view self.old) }
        ensures client { IsSame self.old self.new }
        ensures released { IsReleased (view self.old) (view self.new) }
    {
        let table = &list.table.shared;
        drop_empty::<S>(table.exchange(&mut self.seat, list.clients as usize, Slot::State(state)));
        table.store::<ReleaseState>(&mut self.seat, lock_word(), 0);
    }
}

// The state that was announced.
pub(crate) fn state_in<S: Served>(announced: Record<S>) -> S
    requires { (x : S) × (announced ≡ slots.State x) }
    ensures { announced ≡ slots.State result }
{
    match announced {
        Slot::State(state) => state,
        _ => unreachable!(),
    }
}
