//! The calls on semaphore sets: semget(2), and of semctl(2) GETVAL, GETPID, GETALL, SETVAL and SETALL.

ghost use Rattle.std.specs.Prelude.{
  ◌≡◌,
  ◌==◌,
  ◌<◌,
  ℕ,
  List,
  Some,
  None,
  Ok,
  Err,
  IfOk,
  OnOk,
  OnErr,
  IsSome,
  IfSome,
  MatchResult,
  length,
  map,
  slice_set,
  true,
};
ghost use Rattle.std.specs.List.{list_all};
ghost use Rattle.ipc_model.specs.State.{SemSet as Contents};
ghost use Rattle.ipc_model.specs.Decision.{left_by, outcome_of};
ghost use Rattle.ipc_model.specs.Gets.{object_of_key};
ghost use Rattle.ipc_model.specs.Semaphores.{set_at, with_values};
ghost use Rattle.ipc_ids.specs.Table.{Table};
ghost use Rattle.ipc_objects.specs.declared.object.Object.{Object as Entry};
ghost use Rattle.sem_set.specs.declared.set.Semaphore.{Semaphore};
ghost use Rattle.sem_set.specs.Sets.{is_value as is_value_in, set_to};
ghost use Rattle.ipc_call.specs.declared.replies.Answer.TheVariants.{Value};
ghost use Rattle.sem_calls.specs.Calls.{getting, getting_found, looking, setting, setting_all};
ghost use Rattle.sem_calls.specs.Calls.{telling_all, telling_pid, telling_value};
ghost use Rattle.sem_calls.specs.WithRows.{row_at, sems_of};

use crate::set::Set;
use crate::sets::Sets;
use ipc_call::{Answer, Get, GetSet, Items, Limits, Memory, Outcome, Rule, creates};
use ipc_objects::Object;
use ipc_perm::{TO_ALTER, TO_READ};
use object_calls::{Caller, may_open, new_object};
use sem_set::{SemSet, is_value};

impl Sets {
    /// The set of a key, or a new one (semget(2)). Memory comes where a growth was refused, and
    /// then nothing has changed.
    pub fn semget(
        &mut self,
        limits: &Limits,
        who: &Caller,
        asked: GetSet,
    ) -> Result<Outcome, Memory>
        ensures outcome { IfOk result (λ outcome.
            outcome_of (getting limits.now (sems_of self.old) who.entry.now asked.get asked.nsems) ≡ Some outcome) }
        ensures sems { OnOk result (sems_of self.new
            ≡ left_by (sems_of self.old) (getting limits.now (sems_of self.old) who.entry.now asked.get asked.nsems)) }
        ensures undone { self.new.undone ≡ self.old.undone }
        ensures err { OnErr result (self.new ≡ self.old) }
    {
        if asked.nsems > limits.sem_msl {
            return Ok(Err(Rule::BadSize));
        }
        match self.sets.seek(asked.get.key) {
            None => self.make_set(who, asked),
            Some((id, set)) => Ok(found_set(who, id, set, asked.nsems, asked.get.flags)),
        }
    }

    /// semget with a key that no set has.
    fn make_set(&mut self, who: &Caller, asked: GetSet) -> Result<Outcome, Memory>
        requires { object_of_key self.old.sets asked.get.key ≡ None }
        ensures outcome { IfOk result (λ outcome.
            outcome_of (getting_found self.old.sets who.entry.now asked.get asked.nsems None) ≡ Some outcome) }
        ensures sets { OnOk result (self.new.sets
            ≡ left_by self.old.sets (getting_found self.old.sets who.entry.now asked.get asked.nsems None)) }
        ensures undone { self.new.undone ≡ self.old.undone }
        ensures err { OnErr result (self.new ≡ self.old) }
    {
        if asked.get.key != 0 && !creates(asked.get.flags) {
            return Ok(Err(Rule::NoKey));
        }
        if asked.nsems == 0 {
            return Ok(Err(Rule::BadSize));
        }
        if self.sets.next_id().is_none() {
            return Ok(Err(Rule::NoSlot));
        }
        let Get { key, flags } = asked.get;
        let set = Set::new(self.alloc, asked.nsems as usize)?;
        let id = self.sets.insert(new_object(who, key, flags, set))?;
        Ok(Ok(Answer::Id(id)))
    }

    /// The value of a semaphore (GETVAL of semctl(2)).
    pub fn getval(&self, who: &Caller, id: u32, num: u32) -> Outcome
        ensures outcome { outcome_of (telling_value (sems_of self.now) who.entry.now id num) ≡ Some result }
        ensures same { left_by (sems_of self.now) (telling_value (sems_of self.now) who.entry.now id num)
            ≡ sems_of self.now }
    {
        let semaphores = self.with_semaphore(who, id, num)?;
        Ok(Answer::Value(u32::from(semaphores.get_val(num as usize))))
    }

    /// The process that set a semaphore last, 0 where none has (GETPID of semctl(2)).
    pub fn getpid(&self, who: &Caller, id: u32, num: u32) -> Outcome
        ensures outcome { outcome_of (telling_pid (sems_of self.now) who.entry.now id num) ≡ Some result }
        ensures same { left_by (sems_of self.now) (telling_pid (sems_of self.now) who.entry.now id num)
            ≡ sems_of self.now }
    {
        let semaphores = self.with_semaphore(who, id, num)?;
        Ok(Answer::Value(semaphores.get_pid(num as usize)))
    }

    /// The semaphores of a set that the caller may read, which has one of this number.
    pub fn with_semaphore(&self, who: &Caller, id: u32, num: u32) -> Result<&SemSet, Rule>
        ensures number { IfOk result (λ semaphores. num < length semaphores.now) }
        ensures outcome { (tell : List Semaphore → ℕ) → MatchResult result
            (λ semaphores. outcome_of (looking (sems_of self.now) who.entry.now id num tell)
            ≡ Some (Ok (Value (tell semaphores.now))))
            (λ rule. outcome_of (looking (sems_of self.now) who.entry.now id num tell) ≡ Some (Err rule)) }
    {
        let set = self.permitted(who, id, TO_READ)?;
        let semaphores = &set.contents.semaphores;
        if num as usize >= semaphores.len() {
            return Err(Rule::BadSem);
        }
        Ok(semaphores)
    }

    /// The values of all semaphores of a set (GETALL of semctl(2)). Memory comes where a growth was refused.
    pub fn getall(&self, who: &Caller, id: u32) -> Result<Outcome, Memory>
        ensures outcome { IfOk result (λ outcome.
            outcome_of (telling_all (sems_of self.now) who.entry.now id) ≡ Some outcome) }
        ensures same { left_by (sems_of self.now) (telling_all (sems_of self.now) who.entry.now id) ≡ sems_of self.now }
    {
        let set = match self.permitted(who, id, TO_READ) {
            Ok(set) => set,
            Err(rule) => return Ok(Err(rule)),
        };
        let values = set.contents.semaphores.values(self.alloc)?;
        Ok(Ok(Answer::Values(Items::new(values))))
    }

    /// Sets a semaphore, and what exit undoes of it goes, of every client (SETVAL of semctl(2)). It takes no memory.
    pub fn setval(&mut self, who: &Caller, id: u32, num: u32, value: i32) -> Outcome
        ensures outcome { outcome_of (setting (sems_of self.old) who.entry.now id num value) ≡ Some result }
        ensures sems { sems_of self.new
            ≡ left_by (sems_of self.old) (setting (sems_of self.old) who.entry.now id num value) }
        ensures rows { (client set : ℕ) → row_at self.new client set ≡ row_at self.old client set }
    {
        if !is_value(value) {
            return Err(Rule::ValueRange);
        }
        let set = self.permitted(who, id, TO_ALTER)?;
        if num as usize >= set.contents.semaphores.len() {
            return Err(Rule::BadSem);
        }
        self.put_value(who, id, num, value);
        Ok(Answer::Done)
    }

    /// SETVAL, which was decided.
    fn put_value(&mut self, who: &Caller, id: u32, num: u32, value: i32)
        requires there { IsSome (set_at (sems_of self.old) id) }
        requires number { IfSome (set_at (sems_of self.old) id) (λ set. num < length set.contents.semaphores) }
        requires value { is_value_in value ≡ true }
        ensures sems { IfSome (set_at (sems_of self.old) id) (λ set. sems_of self.new
            ≡ with_values (sems_of self.old) who.entry.now.now id
            (slice_set set.contents.semaphores num (set_to who.entry.now.pid value)) (λ n. n == num)) }
        ensures rows { (client set : ℕ) → row_at self.new client set ≡ row_at self.old client set }
    {
        let Some(set) = self.sets.contents_mut(id) else {
            unreachable!()
        };
        set.semaphores.set_val(num as usize, value, who.pid());
        self.sets.set_time(id, who.now());
        self.undo.clear(id, num);
    }

    /// Sets all semaphores of a set, and what exit undoes of them goes, of every client (SETALL of semctl(2)). It takes
    /// no memory.
    pub fn setall(&mut self, who: &Caller, id: u32, values: &[i32]) -> Outcome
        ensures outcome { outcome_of (setting_all (sems_of self.old) who.entry.now id values.now) ≡ Some result }
        ensures sems { sems_of self.new
            ≡ left_by (sems_of self.old) (setting_all (sems_of self.old) who.entry.now id values.now) }
        ensures rows { (client set : ℕ) → row_at self.new client set ≡ row_at self.old client set }
    {
        if !are_values(values) {
            return Err(Rule::ValueRange);
        }
        let set = self.permitted(who, id, TO_ALTER)?;
        if values.len() != set.contents.semaphores.len() {
            return Err(Rule::BadSize);
        }
        self.put_all(who, id, values);
        Ok(Answer::Done)
    }

    /// SETALL, which was decided.
    fn put_all(&mut self, who: &Caller, id: u32, values: &[i32])
        requires there { IsSome (set_at (sems_of self.old) id) }
        requires count { IfSome (set_at (sems_of self.old) id)
            (λ set. length values.now ≡ length set.contents.semaphores) }
        requires values { list_all is_value_in values.now ≡ true }
        ensures sems { sems_of self.new ≡ with_values (sems_of self.old) who.entry.now.now id
            (map (set_to who.entry.now.pid) values.now) (λ _. true) }
        ensures rows { (client set : ℕ) → row_at self.new client set ≡ row_at self.old client set }
    {
        let Some(set) = self.sets.contents_mut(id) else {
            unreachable!()
        };
        set.semaphores.set_all(values, who.pid());
        self.sets.set_time(id, who.now());
        self.undo.clear_set(id);
    }
}

/// Whether each is a value of a semaphore.
fn are_values(values: &[i32]) -> bool
    ensures { result ≡ list_all is_value_in values.now }
{
    values.iter().all(|value| is_value(*value))
}

/// semget with a key that a set has.
fn found_set(who: &Caller, id: u32, set: &Object<Set>, nsems: u32, flags: u32) -> Outcome
    ensures { (t : Table (Entry Contents)) (key : ℕ)
        → outcome_of (getting_found t who.entry.now (record { key = key; flags = flags }) nsems
        (Some (id, set.now))) ≡ Some result }
{
    may_open(who, &set.perm, flags)?;
    if nsems as usize > set.contents.semaphores.len() {
        return Err(Rule::BadSize);
    }
    Ok(Answer::Id(id))
}
