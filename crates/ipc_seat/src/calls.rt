//! A client posts a call, goes on with it, and takes its reply.

ghost use Rattle.std.specs.Prelude.{◌≡◌, option_copied, pos};
ghost use Rattle.ipc_seat.specs.Codes.{code_of_progress};
ghost use Rattle.ipc_seat.specs.Seats.{Advances, Answered, Posts, hindrance_of, progress_of_seen, reply_of, state_of, taken_of};
ghost use Rattle.ipc_seat.specs.declared.seat.Phase.TheVariants.{Left as HasLeft};

use crate::seat::{Phase, Seat, SeatError};
use ipc_call::{Call, Reply};
use ipc_member::{Looked, Member, Seen};
use std::mem;

/// How far a call is.
#[derive(Clone, Copy, Debug, PartialEq, Eq)]
pub enum Progress {
    /// It is in flight: no client that combines has dealt with it yet.
    InFlight,
    /// It is in the history, and waits.
    Waiting,
    /// It has ended, and its reply can be taken.
    Answered,
}

impl Progress {
    pub(crate) fn of_seen(seen: Seen) -> Progress
        ensures { result ≡ progress_of_seen seen }
    {
        match seen {
            Seen::Posted | Seen::Taken => Progress::InFlight,
            Seen::Parked => Progress::Waiting,
        }
    }

    /// Its code.
    pub(crate) fn code(self) -> i32
        ensures { result ≡ code_of_progress self }
    {
        match self {
            Progress::Answered => 0,
            Progress::InFlight => 1,
            Progress::Waiting => 2,
        }
    }
}

impl Seat {
    /// Posts a call at a time in seconds: whichever client combines may serve it from now on.
    #[inline(always)]
    pub fn post(&mut self, now: u64, call: Call) -> Result<(), SeatError>
        ensures { Posts (state_of self.old) now call (state_of self.new) result }
    {
        let Phase::Idle(_) = &self.phase else {
            return Err(self.hindrance());
        };
        let Phase::Idle(member) = mem::replace(&mut self.phase, Phase::Left) else {
            unreachable!()
        };
        self.settle(Phase::InFlight(member.post(now, call)));
        Ok(())
    }

    // Why nothing is done that is asked out of turn. It is apart, so that the usual way has no table of jumps by four phases.
    #[cold]
    #[inline(never)]
    pub(crate) fn hindrance(&self) -> SeatError
        ensures { result ≡ hindrance_of (state_of self.now) }
    {
        match &self.phase {
            Phase::Idle(_) => SeatError::NoCall,
            Phase::InFlight(_) => SeatError::InFlight,
            Phase::Answered(_) => SeatError::Untaken,
            Phase::Left => SeatError::Left,
        }
    }

    // How far the client is now. Left stood in its place, where nothing is to be dropped: a drop would look which phase it is.
    #[inline(always)]
    pub(crate) fn settle(&mut self, phase: Phase)
        requires { self.old.phase ≡ HasLeft }
        ensures { self.new ≡ record self.old { phase = phase } }
    {
        mem::forget(mem::replace(&mut self.phase, phase));
    }

    /// Tries once to combine, and looks whether the call has ended.
    pub fn advance(&mut self) -> Result<Progress, SeatError>
        ensures { Advances (state_of self.old) (state_of self.new) result }
    {
        match mem::replace(&mut self.phase, Phase::Left) {
            Phase::Idle(member) => {
                self.phase = Phase::Idle(member);
                Err(SeatError::NoCall)
            }
            Phase::InFlight(posted) => match posted.advance() {
                Looked::Done(member, reply) => {
                    self.keep(member, reply);
                    Ok(Progress::Answered)
                }
                Looked::Still(posted, seen) => {
                    self.phase = Phase::InFlight(posted);
                    Ok(Progress::of_seen(seen))
                }
            },
            Phase::Answered(member) => {
                self.phase = Phase::Answered(member);
                Ok(Progress::Answered)
            }
            Phase::Left => Err(SeatError::Left),
        }
    }

    // Keeps a reply until it is taken.
    #[cold]
    #[inline(never)]
    pub(crate) fn keep(&mut self, member: Member, reply: Reply)
        ensures { state_of self.new ≡ Answered member reply }
    {
        self.reply = reply;
        self.phase = Phase::Answered(member);
    }

    /// The reply to take, if there is one.
    pub fn reply(&self) -> Option<&Reply>
        ensures { option_copied result ≡ reply_of (state_of self.now) }
    {
        match &self.phase {
            Phase::Answered(_) => Some(&self.reply),
            _ => None,
        }
    }

    /// Takes the reply. The client asks nothing then.
    pub fn take(&mut self) -> Option<Reply>
        ensures reply { result ≡ reply_of (state_of self.old) }
        ensures state { state_of self.new ≡ taken_of (state_of self.old) }
    {
        match mem::replace(&mut self.phase, Phase::Left) {
            Phase::Answered(member) => {
                self.phase = Phase::Idle(member);
                Some(mem::replace(&mut self.reply, Reply::Memory))
            }
            Phase::Idle(member) => {
                self.phase = Phase::Idle(member);
                None
            }
            Phase::InFlight(posted) => {
                self.phase = Phase::InFlight(posted);
                None
            }
            Phase::Left => None,
        }
    }
}
