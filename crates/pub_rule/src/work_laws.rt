//! One law for each kind of step on the publication records.
//!
//! These are the kinds of step by which a client asks and a combiner serves in flat combining. A law treats the client
//! that steps and any one other.
ghost use Rattle.std.specs.Prelude.{ℕ};
ghost use Rattle.pub_rule.specs.WorkLaws.{
  KeptByFetch,
  KeptByPost,
  KeptByCollect,
  KeptBySeize,
  KeptByPeekLock,
  KeptByTake,
  KeptByPeek,
  KeptByAnswer,
  KeptByRelease,
  KeptByPark,
  KeptByRefuse,
  KeptByResume,
  KeptByHand,
  KeptByGive,
  KeptByLook,
  KeptByWatch,
};
ghost use Rattle.pub_rule.specs.WorkClosing.{KeptByEnter, KeptByClose, KnownAtEnd};

use crate::served::Served;

/// Post: a client that has its slot in its hands, with its call, makes its own state word 1.
pub fn post<S: Served>()
    ensures { (n : ℕ) → KeptByPost S.Served n }
{}

/// Collect: a client makes its own state word 0 where it is 4; else it sees the history.
pub fn collect<S: Served>()
    ensures { (n : ℕ) → KeptByCollect S.Served n }
{}

/// Take: the holder, which has taken no record, makes the state word of a client 2 where it is 1.
pub fn take<S: Served>()
    ensures { (n : ℕ) → KeptByTake S.Served n }
{}

/// Peek: the holder, which has taken no record, reads the state word of a client. Another word than 1 tells
/// what a `take` tells that fails.
pub fn peek<S: Served>()
    ensures { (n : ℕ) → KeptByPeek S.Served n }
{}

/// Seize: a client that doesn't combine makes the lock word its own number + 1 where it is 0.
pub fn seize<S: Served>()
    ensures { (n : ℕ) → KeptBySeize S.Served n }
{}

/// Peek at the lock: a client that doesn't combine reads the lock word. Another word than 0 tells what a `seize`
/// tells that fails.
pub fn peek_lock<S: Served>()
    ensures { (n : ℕ) → KeptByPeekLock S.Served n }
{}

/// Read state, for the first time: a client whose slot lies empty at home takes it.
pub fn fetch<S: Served>()
    ensures { (n : ℕ) → KeptByFetch S.Served n }
{}

/// Release: the holder, which has taken no record and owes nothing, makes the lock word 0.
pub fn release<S: Served>()
    ensures { (n : ℕ) → KeptByRelease S.Served n }
{}

/// Answer: the holder, which has taken a posted record and owes nothing, makes its state word 4, with the
/// reply of the call's event, which is the last in the history.
pub fn answer<S: Served>()
    ensures { (n : ℕ) → KeptByAnswer S.Served n }
{}

/// Mark parked: the holder, which has taken a posted record and owes nothing, makes its state word 3, with
/// the call's event, which brings its client no reply.
pub fn mark_parked<S: Served>()
    ensures { (n : ℕ) → KeptByPark S.Served n }
{}

/// Answer Memory: the holder, which has taken a posted record, makes its state word 4, and the history stays.
pub fn answer_memory<S: Served>()
    ensures { (n : ℕ) → KeptByRefuse S.Served n }
{}

/// Take from parked: the holder, which has taken no record, makes the state word of a client 2 that is owed a
/// reply. The word was 3.
pub fn take_parked<S: Served>()
    ensures { (n : ℕ) → KeptByResume S.Served n }
{}

/// Answer from parked: the holder, which has taken a parked record, makes its state word 4, with the last of
/// its client's replies in the history, which stays.
pub fn answer_parked<S: Served>()
    ensures { (n : ℕ) → KeptByHand S.Served n }
{}

/// Read state, for the last time: a client that has its slot in its hands, which is empty, gives it back; one
/// that has it at home stays as it was.
pub fn give<S: Served>()
    ensures { (n : ℕ) → KeptByGive S.Served n }
{}

/// Read state: any seat reads the state word of any client. It tells the word, and no more.
pub fn look<S: Served>()
    ensures { (n : ℕ) → KeptByLook S.Served n }
{}

/// Read state: a client reads its own state word, and sees the history.
pub fn watch<S: Served>()
    ensures { (n : ℕ) → KeptByWatch S.Served n }
{}

/// Enter, as the list is closed: a new seat of no client, which knows nothing.
pub fn enter<S: Served>()
    ensures { (n : ℕ) → KeptByEnter S.Served n }
{}

/// Merge, as the list is closed: the seat of a client that doesn't combine, and has its slot at home, is
/// spent, and a seat of no client keeps what it told. The clients come in any order.
pub fn close<S: Served>()
    ensures { (n : ℕ) → KeptByClose S.Served n }
{}

/// The end: where n clients told, nobody combines, the state and each client's slot lie at home, and the
/// history is as each client told, but for a call that was in flight.
pub fn end<S: Served>()
    ensures { (n : ℕ) → KnownAtEnd S.Served n }
{}
