//! shmat and shmdt (shmop(2)), and what an exit detaches.

ghost use Rattle.std.specs.Prelude.{◌≡◌, ◌<◌, ℕ, Some, None, IfOk, OnOk, OnErr, IfSome, IsSome};
ghost use Rattle.ipc_model.specs.Decision.{left_by, outcome_of};
ghost use Rattle.ipc_model.specs.Segments.{after_detaches, after_fork, attachment_to, detached, detached_by, left_segment, noted};
ghost use Rattle.ipc_model.specs.Segments.{segment_at, wanted_to_attach, with_attached};
ghost use Rattle.ipc_objects.specs.Objects.{with_contents};
ghost use Rattle.shm_calls.specs.Calls.{attaching, detaching, noted_at, noted_from};
ghost use Rattle.shm_seg.specs.Attachments.{attachment_at, shmseg};

use crate::segments::Segments;
use ipc_call::{Answer, Memory, Outcome, Rule, is_read_only};
use ipc_perm::Want;
use object_calls::Caller;
use shm_seg::Attachment;

impl Segments {
    /// Attaches the segment of an identifier under the least number that the caller has free, with `SHM_RDONLY` in the
    /// flags for reading alone (shmat of shmop(2)). Memory comes where a growth was refused, and then nothing has
    /// changed.
    pub fn shmat(&mut self, who: &Caller, id: u32, flags: u32) -> Result<Outcome, Memory>
        ensures outcome { IfOk result (λ outcome.
            outcome_of (attaching self.old who.entry.now id flags) ≡ Some outcome) }
        ensures shared { OnOk result (self.new ≡ left_by self.old (attaching self.old who.entry.now id flags)) }
        ensures err { OnErr result (self.new ≡ self.old) }
    {
        if let Err(rule) = self.permitted(who, id, wanted_by(flags)) {
            return Ok(Err(rule));
        }
        let Some(number) = self.attached.free_number(who.process()) else {
            return Ok(Err(Rule::TooManyAttached));
        };
        self.attach(who, id, flags, number)?;
        Ok(Ok(Answer::Attached(number)))
    }

    /// shmat, which was decided, under a number that is free.
    fn attach(&mut self, who: &Caller, id: u32, flags: u32, number: u32) -> Result<(), Memory>
        requires there { IsSome (segment_at self.old id) }
        requires number { number < 4096 }
        requires free { attachment_at self.old.attached who.now.process number ≡ None }
        ensures ok { OnOk result (IfSome (segment_at self.old id) (λ segment.
            self.new ≡ with_attached self.old who.entry.now number (attachment_to id flags) segment.contents)) }
        ensures err { OnErr result (self.new ≡ self.old) }
    {
        let attachment = Attachment {
            segment: id,
            is_read_only: is_read_only(flags),
        };
        self.attached.attach(who.process(), number, attachment)?;
        self.note_attach(who, id);
        Ok(())
    }

    /// Detaches what the caller has attached under a number (shmdt of shmop(2)). A segment that is marked for removal
    /// goes with its last attachment (IPC_RMID of shmctl(2)). It takes no memory.
    pub fn shmdt(&mut self, who: &Caller, att: u32) -> Outcome
        ensures outcome { outcome_of (detaching self.old who.entry.now att) ≡ Some result }
        ensures shared { self.new ≡ left_by self.old (detaching self.old who.entry.now att) }
    {
        if self.attached.get(who.process(), att).is_none() {
            return Err(Rule::NotAttached);
        }
        self.detach(who, att);
        Ok(Answer::Done)
    }

    /// Detaches all that the caller has attached, as its exit does, the least number first (shmop(2); POSIX XSH _Exit).
    /// It takes no memory.
    pub fn exit(&mut self, who: &Caller)
        ensures { self.new ≡ after_detaches self.old who.entry.now }
    {
        while let Some(number) = self.attached.first(who.process()) {
            self.detach(who, number);
        }
    }

    /// Gives a new process, which has nothing attached, what the caller's has attached, under the same numbers and with the
    /// same rights (fork(2); shmop(2)). Memory comes where a growth was refused, and then nothing has changed.
    pub fn fork(&mut self, who: &Caller, child: u64) -> Result<(), Memory>
        requires none { (number : ℕ) → attachment_at self.old.attached child number ≡ None }
        ensures ok { OnOk result (self.new ≡ after_fork self.old who.entry.now child) }
        ensures err { OnErr result (self.new ≡ self.old) }
    {
        self.attached.copy_all(who.process(), child)?;
        self.note_copies(who);
        Ok(())
    }

    /// Sets who attached each segment last that the caller's process has attached, and when.
    fn note_copies(&mut self, who: &Caller)
        ensures { self.new ≡ record self.old { segments = noted_from shmseg 0 who.entry.now (λ n. attachment_at self.old.attached who.entry.now.process n) self.old.segments } }
    {
        let mut next = self.attached.first(who.process());
        while let Some(number) = next {
            self.note_number(who, number);
            next = self.attached.next(who.process(), number);
        }
    }

    /// Sets who attached last what the caller's process has attached under a number, and when.
    fn note_number(&mut self, who: &Caller, number: u32)
        ensures { self.new ≡ record self.old { segments = noted_at self.old.segments who.entry.now (attachment_at self.old.attached who.entry.now.process number) } }
    {
        if let Some(attachment) = self.attached.get(who.process(), number) {
            self.note_attach(who, attachment.segment);
        }
    }

    /// Sets who attached the segment of an identifier last, where there is one, and when.
    fn note_attach(&mut self, who: &Caller, id: u32)
        ensures { self.new ≡ record self.old { segments = noted self.old.segments who.entry.now id } }
    {
        let Some(segment) = self.segments.contents_mut(id) else {
            return;
        };
        segment.last = who.pid();
        segment.attach_time = who.now();
    }

    /// Detaches what the caller has attached under a number, where there is anything.
    fn detach(&mut self, who: &Caller, number: u32)
        ensures { self.new ≡ detached self.old who.entry.now number }
    {
        if let Some(attachment) = self.attached.detach(who.process(), number) {
            self.leave(who, attachment.segment);
        }
    }

    /// What the detach of one of its attachments leaves of the segment of an identifier, where there is one.
    fn leave(&mut self, who: &Caller, id: u32)
        ensures { self.new ≡ left_segment self.old who.entry.now id (segment_at self.old id) }
    {
        let Some(segment) = self.get(id) else {
            return;
        };
        if segment.contents.memory.is_marked() && self.nattch(id) == 0 {
            self.segments.remove(id);
        } else {
            self.note_detach(who, id);
        }
    }

    /// Sets who detached the segment of an identifier last, which there is, and when.
    fn note_detach(&mut self, who: &Caller, id: u32)
        requires { IsSome (segment_at self.old id) }
        ensures { IfSome (segment_at self.old id) (λ segment. self.new ≡ record self.old {
          segments = with_contents self.old.segments id (detached_by who.entry.now segment.contents);
        }) }
    {
        let Some(segment) = self.segments.contents_mut(id) else {
            unreachable!()
        };
        segment.last = who.pid();
        segment.detach_time = who.now();
    }
}

/// The rights that shmat needs with these flags: to read, and without `SHM_RDONLY` to write (shmop(2)).
fn wanted_by(flags: u32) -> Want
    ensures { result ≡ wanted_to_attach flags }
{
    Want {
        read: true,
        alter: !is_read_only(flags),
    }
}
