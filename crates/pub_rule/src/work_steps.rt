//! The kinds of step on the publication records, and what each tells the seat that takes it.
//!
//! They are those by which a client asks and a combiner serves in flat combining.
use crate::served::{Served, Slot};
use crate::walk::View;
use crate::work::Work;
use atomic_table::Play;

/// Read state, for the first time: the client's slot comes into its hands.
pub struct FetchSlot;

impl<E, C, R, S> Play<Slot<C, R, S>, View<Work<E, C, R>>> for FetchSlot {
    ghost use Rattle.pub_rule.specs.WorkSteps.{Fetches};

    ghost then = { λ st m k m'. Fetches m m' };
}

/// Post: the client's call goes home.
pub struct PostCall;

impl<E, C, R, S> Play<Slot<C, R, S>, View<Work<E, C, R>>> for PostCall {
    ghost use Rattle.pub_rule.specs.WorkSteps.{Posts};

    ghost then = { λ st m k m'. Posts m m' };
}

/// Collect: the reply comes into the client's hands, where its word was 4.
pub struct CollectReply;

impl<S: Served> Play<Slot<S::Call, S::Reply, S>, View<Work<S::Event, S::Call, S::Reply>>>
    for CollectReply {
    ghost use Rattle.pub_rule.specs.WorkSteps.{reply_collected};

    ghost then = { λ st m k m'. reply_collected S.Served m m' k };
}

/// Seize: the state comes into the client's hands, where nobody combined; else the client that combines is seen.
pub struct SeizeState;

impl<S: Served> Play<Slot<S::Call, S::Reply, S>, View<Work<S::Event, S::Call, S::Reply>>>
    for SeizeState {
    ghost use Rattle.std.specs.Prelude.{◌-◌};
    ghost use Rattle.pub_rule.specs.WorkSteps.{state_seized};

    ghost then = { λ st m k m'. state_seized S.Served m m' (st.slots - 1) k };
}

/// Peek at the lock: whether nobody combines; else the client that combines is seen.
pub struct PeekLock;

impl<E, C, R, S> Play<Slot<C, R, S>, View<Work<E, C, R>>> for PeekLock {
    ghost use Rattle.std.specs.Prelude.{◌-◌};
    ghost use Rattle.pub_rule.specs.WorkSteps.{lock_peeked};

    ghost then = { λ st m k m'. lock_peeked m m' (st.slots - 1) k };
}

/// Take: a posted call comes into the combiner's hands, where the record's word was 1.
pub struct TakePosted;

impl<S: Served> Play<Slot<S::Call, S::Reply, S>, View<Work<S::Event, S::Call, S::Reply>>>
    for TakePosted {
    ghost use Rattle.pub_rule.specs.WorkSteps.{call_taken};

    ghost then = { λ st m k m'. call_taken S.Served m m' st.word k };
}

/// Peek: the combiner sees whether a record is posted; where it isn't, a combiner has dealt with its client's last
/// post.
pub struct PeekAt;

impl<E, C, R, S> Play<Slot<C, R, S>, View<Work<E, C, R>>> for PeekAt {
    ghost use Rattle.pub_rule.specs.WorkSteps.{record_peeked};

    ghost then = { λ st m k m'. record_peeked m m' st.word k };
}

/// Take from parked: a parked record whose client is owed a reply comes into the combiner's hands.
pub struct TakeParked;

impl<E, C, R, S> Play<Slot<C, R, S>, View<Work<E, C, R>>> for TakeParked {
    ghost use Rattle.pub_rule.specs.WorkSteps.{Resumes};

    ghost then = { λ st m k m'. Resumes m m' st.word k };
}

/// Answer: a reply goes home. To a posted call the history has one event more, that of the state announced; to a parked
/// one it has the reply already.
pub struct AnswerCall;

impl<S: Served> Play<Slot<S::Call, S::Reply, S>, View<Work<S::Event, S::Call, S::Reply>>>
    for AnswerCall {
    ghost use Rattle.pub_rule.specs.Rule.{work};
    ghost use Rattle.pub_rule.specs.WorkSteps.{reply_put};

    ghost then = { λ st m k m'. reply_put S.Served m m' st.word st.said (work m).serving };
}

/// Answer, where a posted call is refused for memory: the history stays.
pub struct RefuseCall;

impl<E, C, R, S> Play<Slot<C, R, S>, View<Work<E, C, R>>> for RefuseCall {
    ghost use Rattle.pub_rule.specs.WorkSteps.{call_refused};

    ghost then = { λ st m k m'. call_refused m m' st.word };
}

/// Mark parked: the slot of a posted call goes home empty, and the history has one event more, that of the state
/// announced.
pub struct ParkCall;

impl<S: Served> Play<Slot<S::Call, S::Reply, S>, View<Work<S::Event, S::Call, S::Reply>>>
    for ParkCall {
    ghost use Rattle.pub_rule.specs.WorkSteps.{call_parked};

    ghost then = { λ st m k m'. call_parked S.Served m m' st.word st.said };
}

/// Read state: the word of any record is seen.
pub struct LookAt;

impl<E, C, R, S> Play<Slot<C, R, S>, View<Work<E, C, R>>> for LookAt {
    ghost use Rattle.std.specs.Prelude.{◌≡◌, ◌<◌};

    ghost then = { λ st m k m'. (k < 5) × (m' ≡ m) };
}

/// Read state, of the own record: the history is seen with it.
pub struct LookOwn;

impl<S: Served> Play<Slot<S::Call, S::Reply, S>, View<Work<S::Event, S::Call, S::Reply>>>
    for LookOwn {
    ghost use Rattle.pub_rule.specs.WorkSteps.{LooksAtOwn};

    ghost then = { λ st m k m'. LooksAtOwn S.Served m m' k };
}

/// Read state, for the last time: the client's slot goes home empty.
pub struct GiveSlot;

impl<E, C, R, S> Play<Slot<C, R, S>, View<Work<E, C, R>>> for GiveSlot {
    ghost use Rattle.pub_rule.specs.WorkSteps.{slot_given};

    ghost then = { λ st m k m'. slot_given m m' };
}

/// Release: the state goes home.
pub struct ReleaseState;

impl<E, C, R, S> Play<Slot<C, R, S>, View<Work<E, C, R>>> for ReleaseState {
    ghost use Rattle.pub_rule.specs.WorkSteps.{state_released};

    ghost then = { λ st m k m'. state_released m m' };
}
