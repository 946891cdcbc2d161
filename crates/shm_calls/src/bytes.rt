//! The bytes behind an attachment, read and written by calls in the place of mapped memory (shmop(2)).

ghost use Rattle.std.specs.Prelude.{◌≡◌, Some, IfOk, OnOk, OnErr, option_map};
ghost use Rattle.ipc_model.specs.Decision.{left_by, outcome_of};
ghost use Rattle.ipc_model.specs.Segments.{behind as behind_number};
ghost use Rattle.shm_calls.specs.Calls.{reading, writing};

use crate::segment::Segment;
use crate::segments::Segments;
use ipc_call::{Answer, Memory, Outcome, Rule};
use ipc_objects::Object;
use object_calls::Caller;
use shm_seg::{Attachment, Fault};

impl Segments {
    /// The `len` bytes from an offset on of what the caller has attached under a number. Memory comes only where the
    /// allocation of the bytes fails. As there, the right was asked at shmat, and isn't asked again (shmop(2)).
    pub fn shmread(&self, who: &Caller, att: u32, offset: u64, len: u64) -> Result<Outcome, Memory>
        ensures outcome { IfOk result (λ outcome.
            outcome_of (reading self.now who.entry.now att offset len) ≡ Some outcome) }
        ensures same { left_by self.now (reading self.now who.entry.now att offset len) ≡ self.now }
    {
        let Some((_, segment)) = self.behind(who, att) else {
            return Ok(Err(Rule::NotAttached));
        };
        match segment.contents.memory.read(self.alloc, offset, len) {
            Ok(bytes) => Ok(Ok(Answer::Bytes(bytes))),
            Err(Fault::Refused(rule)) => Ok(Err(rule)),
            Err(Fault::Memory(memory)) => Err(memory),
        }
    }

    /// Writes bytes from an offset on of what the caller has attached under a number, and not with `SHM_RDONLY`. Memory
    /// comes only where the first write to a segment is refused its memory, and then nothing has changed. As there, the
    /// right was asked at shmat, and isn't asked again (shmop(2)).
    pub fn shmwrite(
        &mut self,
        who: &Caller,
        att: u32,
        offset: u64,
        bytes: &[u8],
    ) -> Result<Outcome, Memory>
        ensures outcome { IfOk result (λ outcome.
            outcome_of (writing self.old who.entry.now att offset bytes.now) ≡ Some outcome) }
        ensures shared { OnOk result
            (self.new ≡ left_by self.old (writing self.old who.entry.now att offset bytes.now)) }
        ensures err { OnErr result (self.new ≡ self.old) }
    {
        let Some((attachment, _)) = self.behind(who, att) else {
            return Ok(Err(Rule::NotAttached));
        };
        if attachment.is_read_only {
            return Ok(Err(Rule::ReadOnly));
        }
        let Some(segment) = self.segments.contents_mut(attachment.segment) else {
            unreachable!()
        };
        match segment.memory.write(self.alloc, offset, bytes) {
            Ok(()) => Ok(Ok(Answer::Done)),
            Err(Fault::Refused(rule)) => Ok(Err(rule)),
            Err(Fault::Memory(memory)) => Err(memory),
        }
    }

    /// What the caller has attached under a number, with its segment.
    fn behind(&self, who: &Caller, att: u32) -> Option<(Attachment, &Object<Segment>)>
        ensures { option_map (λ there. (there.0, there.1.now)) result
            ≡ behind_number self.now who.entry.now.process att }
    {
        let attachment = self.attached.get(who.process(), att)?;
        let segment = self.get(attachment.segment)?;
        Some((attachment, segment))
    }
}
