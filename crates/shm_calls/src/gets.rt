//! shmget(2).

ghost use Rattle.std.specs.Prelude.{◌≡◌, ℕ, Some, None, IfOk, OnOk, OnErr};
ghost use Rattle.ipc_call.specs.declared.limits.Limits.{Limits as LimitsOf};
ghost use Rattle.ipc_model.specs.State.{Segment as Contents};
ghost use Rattle.ipc_model.specs.Decision.{left_by, outcome_of};
ghost use Rattle.ipc_model.specs.Gets.{object_of_key};
ghost use Rattle.ipc_ids.specs.Table.{Table};
ghost use Rattle.ipc_objects.specs.declared.object.Object.{Object as Entry};
ghost use Rattle.shm_calls.specs.Calls.{getting, getting_found};

use crate::segment::Segment;
use crate::segments::Segments;
use ipc_call::{Answer, Get, GetSegment, Limits, Memory, Outcome, Rule, creates};
use ipc_objects::Object;
use object_calls::{Caller, may_open, new_object};

impl Segments {
    /// The segment of a key, or a new one (shmget(2)). Memory comes where a growth was refused, and
    /// then nothing has changed.
    pub fn shmget(
        &mut self,
        limits: &Limits,
        who: &Caller,
        asked: GetSegment,
    ) -> Result<Outcome, Memory>
        ensures outcome { IfOk result (λ outcome.
            outcome_of (getting limits.now self.old who.entry.now asked.get asked.size) ≡ Some outcome) }
        ensures shared { OnOk result
            (self.new ≡ left_by self.old (getting limits.now self.old who.entry.now asked.get asked.size)) }
        ensures err { OnErr result (self.new ≡ self.old) }
    {
        match self.segments.seek(asked.get.key) {
            None => self.make_segment(limits, who, asked),
            Some((id, segment)) => {
                Ok(found_segment(who, id, segment, asked.size, asked.get.flags))
            }
        }
    }

    /// shmget with a key that no segment has.
    fn make_segment(
        &mut self,
        limits: &Limits,
        who: &Caller,
        asked: GetSegment,
    ) -> Result<Outcome, Memory>
        requires { object_of_key self.old.segments asked.get.key ≡ None }
        ensures outcome { IfOk result (λ outcome. outcome_of
            (getting_found limits.now self.old.segments who.entry.now asked.get asked.size None) ≡ Some outcome) }
        ensures segments { OnOk result (self.new.segments ≡ left_by self.old.segments
            (getting_found limits.now self.old.segments who.entry.now asked.get asked.size None)) }
        ensures attached { self.new.attached ≡ self.old.attached }
        ensures err { OnErr result (self.new ≡ self.old) }
    {
        if asked.get.key != 0 && !creates(asked.get.flags) {
            return Ok(Err(Rule::NoKey));
        }
        if asked.size == 0 || asked.size > u64::from(limits.shm_max) {
            return Ok(Err(Rule::BadSize));
        }
        if self.segments.next_id().is_none() {
            return Ok(Err(Rule::NoSlot));
        }
        let Get { key, flags } = asked.get;
        let segment = Segment::new(who, asked.size);
        let id = self.segments.insert(new_object(who, key, flags, segment))?;
        Ok(Ok(Answer::Id(id)))
    }
}

/// shmget with a key that a segment has.
fn found_segment(who: &Caller, id: u32, segment: &Object<Segment>, size: u64, flags: u32) -> Outcome
    ensures { (t : Table (Entry Contents)) (limits : LimitsOf) (key : ℕ)
        → outcome_of (getting_found limits t who.entry.now (record { key = key; flags = flags }) size
        (Some (id, segment.now))) ≡ Some result }
{
    may_open(who, &segment.perm, flags)?;
    if size > segment.contents.memory.len() {
        return Err(Rule::BadSize);
    }
    Ok(Answer::Id(id))
}
