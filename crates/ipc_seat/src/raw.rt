//! The same in numbers, as C has it.

ghost use Rattle.std.specs.Prelude.{◌≡◌};
ghost use Rattle.ipc_abi.specs.Requests.{lists_in};
ghost use Rattle.ipc_seat.specs.Codes.{code_of_advance, code_of_post, code_of_read};
ghost use Rattle.ipc_seat.specs.Raw.{GoesOnRaw, HandsOut, PostsRaw, code_of_end, room};
ghost use Rattle.ipc_seat.specs.Seats.{Answered, IsAtRest, state_of};
ghost use Rattle.ipc_seat.specs.declared.seat.Phase.TheVariants.{Left as HasLeft};

use crate::calls::Progress;
use crate::seat::{Phase, Seat, SeatError};
use ipc_abi::{Lists, RawObject, RawReply, RawRequest, copy_lists, fits};
use ipc_call::Reply;
use ipc_member::{Looked, Member};
use std::mem;

impl Seat {
    /// Posts the call of a request, at its clock. The error `Unknown` is for a request that is no call.
    #[inline(always)]
    pub fn post_raw(&mut self, request: &RawRequest, lists: Lists) -> Result<(), SeatError>
        ensures { PostsRaw (state_of self.old) request.now (lists_in lists.entry) (state_of self.new) result }
    {
        let call = request.call(self.alloc, lists)?;
        self.post(request.clock, call)
    }

    /// Tries once to combine, and where the call has ended gives its reply, and takes it where its lists fit.
    pub fn advance_raw(
        &mut self,
        reply: &mut RawReply,
        bytes: &mut [u8],
        values: &mut [u16],
        objects: &mut [RawObject],
    ) -> Result<Progress, SeatError>
        ensures { GoesOnRaw (state_of self.old) (state_of self.new)
            (room reply.old bytes.old values.old objects.old) (room reply.new bytes.new values.new objects.new) result }
    {
        let Phase::InFlight(_) = &self.phase else {
            return self.hand_out_kept(reply, bytes, values, objects);
        };
        let Phase::InFlight(posted) = mem::replace(&mut self.phase, Phase::Left) else {
            unreachable!()
        };
        match posted.advance() {
            Looked::Done(member, answer) => {
                self.hand_out(member, answer, reply, bytes, values, objects)
            }
            Looked::Still(posted, seen) => {
                self.settle(Phase::InFlight(posted));
                Ok(Progress::of_seen(seen))
            }
        }
    }

    // Gives a reply, and keeps it where its lists don't fit.
    #[inline(always)]
    fn hand_out(
        &mut self,
        member: Member,
        reply: Reply,
        out: &mut RawReply,
        bytes: &mut [u8],
        values: &mut [u16],
        objects: &mut [RawObject],
    ) -> Result<Progress, SeatError>
        requires { self.old.phase ≡ HasLeft }
        ensures { HandsOut (Answered member reply) (state_of self.new)
            (room out.old bytes.old values.old objects.old) (room out.new bytes.new values.new objects.new) result }
    {
        *out = RawReply::new(&reply);
        if !fits(&reply, bytes.len(), values.len(), objects.len()) {
            self.keep(member, reply);
            return Err(SeatError::NoRoom);
        }
        copy_lists(&reply, bytes, values, objects);
        self.settle(Phase::Idle(member));
        Ok(Progress::Answered)
    }

    // The same of the reply that was kept, if there is one.
    #[cold]
    #[inline(never)]
    fn hand_out_kept(
        &mut self,
        out: &mut RawReply,
        bytes: &mut [u8],
        values: &mut [u16],
        objects: &mut [RawObject],
    ) -> Result<Progress, SeatError>
        requires { IsAtRest self.old.phase }
        ensures { GoesOnRaw (state_of self.old) (state_of self.new)
            (room out.old bytes.old values.old objects.old) (room out.new bytes.new values.new objects.new) result }
    {
        let Phase::Answered(_) = &self.phase else {
            return Err(self.hindrance());
        };
        let Phase::Answered(member) = mem::replace(&mut self.phase, Phase::Left) else {
            unreachable!()
        };
        let reply = mem::replace(&mut self.reply, Reply::Memory);
        self.hand_out(member, reply, out, bytes, values, objects)
    }

    /// Ends the client, and tells how far it was: 0 where it asked nothing, 1 where its call was in flight, and 2 where its
    /// reply wasn't taken.
    pub fn end_raw(self) -> i32
        ensures { result ≡ code_of_end (state_of self) }
    {
        match &self.phase {
            Phase::Idle(_) => 0,
            Phase::InFlight(_) => 1,
            Phase::Answered(_) => 2,
            Phase::Left => SeatError::Left.code(),
        }
    }
}

/// The code of a post: 0 where the call is posted.
pub fn post_code(posted: Result<(), SeatError>) -> i32
    ensures { result ≡ code_of_post posted }
{
    match posted {
        Ok(()) => 0,
        Err(error) => error.code(),
    }
}

/// The code of a read of the journal: 0 where it was read.
pub fn read_code(read: Result<usize, SeatError>) -> i32
    ensures { result ≡ code_of_read read }
{
    match read {
        Ok(_) => 0,
        Err(error) => error.code(),
    }
}

/// The code of a step: 0 where the reply is taken, 1 and 2 where the call is in flight and where it waits.
pub fn advance_code(advanced: Result<Progress, SeatError>) -> i32
    ensures { result ≡ code_of_advance advanced }
{
    match advanced {
        Ok(progress) => progress.code(),
        Err(error) => error.code(),
    }
}
