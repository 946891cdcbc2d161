//! semop(2).

ghost use Rattle.std.specs.Prelude.{
  ◌≡◌,
  ◌<◌,
  ◌-ℤ◌,
  ℕ,
  not,
  pos,
  true,
  Some,
  Ok,
  IfOk,
  OnOk,
  OnErr,
  IfSome,
  IsSome,
};
ghost use Rattle.std.specs.List.{AllByRecursion, list_any};
ghost use Rattle.std.specs.Ordering.{int_eq};
ghost use Rattle.ipc_call.specs.declared.limits.Limits.{Limits as LimitsOf};
ghost use Rattle.ipc_model.specs.Decision.{left_by, outcome_of, without_answer};
ghost use Rattle.ipc_model.specs.Semaphores.{lowered, set_at, stopping as stopping_at, wanted_by as wanted_of};
ghost use Rattle.sem_set.specs.Trials.{are_in as are_numbers_of, is_semadj, trial_on, undoes as undoes_at};
ghost use Rattle.sem_undo.specs.Entries.{adj_of, row_len};
ghost use Rattle.sem_calls.specs.WithRows.{HasRow, row_at, sems_of};
ghost use Rattle.sem_calls.specs.Operations.{IsOperated, MayOperate, StayInRange, lowered_by, operating, end_by};

use crate::set::Set;
use crate::sets::Sets;
use ipc_call::{Answer, Limits, Memory, Outcome, Rule, SemOper, undoes};
use ipc_perm::Want;
use object_calls::Caller;
use sem_set::Trial;
use sem_undo::Undo;

impl Sets {
    /// The operations of a semop on the set of an identifier (semop(2)): how the call ends, None where it waits. Memory
    /// comes where a growth was refused, and then nothing has changed.
    pub fn semop(
        &mut self,
        limits: &Limits,
        who: &Caller,
        id: u32,
        ops: &[SemOper],
    ) -> Result<Option<Outcome>, Memory>
        ensures outcome { IfOk result (λ outcome.
            outcome ≡ outcome_of (operating limits.now (sems_of self.old) who.entry.now id ops.now)) }
        ensures sems { OnOk result (sems_of self.new
            ≡ left_by (sems_of self.old) (operating limits.now (sems_of self.old) who.entry.now id ops.now)) }
        ensures rows { (c s n : ℕ) → n < row_at self.old c s → n < row_at self.new c s }
        ensures err { OnErr result (self.new ≡ self.old) }
    {
        match self.decide_semop(limits, who, id, ops) {
            None => Ok(None),
            Some(Err(rule)) => Ok(Some(Err(rule))),
            Some(Ok(())) => {
                self.reserve(who.process(), id, ops)?;
                self.operate(who, id, ops);
                Ok(Some(Ok(Answer::Done)))
            }
        }
    }

    /// The operations of a semop that waits, tried anew (semop(2)): how the call ends, None where it waits on. Its row
    /// was reserved, and it takes no memory.
    pub fn semop_reserved(
        &mut self,
        limits: &Limits,
        who: &Caller,
        id: u32,
        ops: &[SemOper],
    ) -> Option<Outcome>
        requires { HasRow self.old who.now.process id ops.now }
        ensures outcome { result ≡ outcome_of (operating limits.now (sems_of self.old) who.entry.now id ops.now) }
        ensures sems { sems_of self.new
            ≡ left_by (sems_of self.old) (operating limits.now (sems_of self.old) who.entry.now id ops.now) }
        ensures rows { (c s : ℕ) → row_at self.new c s ≡ row_at self.old c s }
    {
        match self.decide_semop(limits, who, id, ops) {
            None => None,
            Some(Err(rule)) => Some(Err(rule)),
            Some(Ok(())) => {
                self.operate(who, id, ops);
                Some(Ok(Answer::Done))
            }
        }
    }

    /// The operation at which a semop stops that waits (GETNCNT and GETZCNT of semctl(2)); None where it doesn't wait.
    pub fn stopping(&mut self, process: u64, id: u32, ops: &[SemOper]) -> Option<SemOper>
        ensures stop { result ≡ stopping_at (sems_of self.old) process id ops.now }
        ensures same { self.new ≡ self.old }
    {
        let set = self.sets.get(id)?;
        if !are_in(&set.contents, ops) {
            return None;
        }
        match self.try_on(process, id, ops) {
            Trial::Wait(place) => ops.get(place).copied(),
            Trial::Go | Trial::Refuse(_) => None,
        }
    }

    /// Makes the row of semadj that the operations of a process on the set of an identifier need, where exit undoes one
    /// of them. Memory comes where a growth was refused, and then nothing has changed.
    pub fn reserve(&mut self, process: u64, id: u32, ops: &[SemOper]) -> Result<(), Memory>
        requires there { IsSome (set_at (sems_of self.old) id) }
        requires numbers { IfSome (set_at (sems_of self.old) id)
            (λ set. are_numbers_of set.contents.semaphores ops.now ≡ true) }
        ensures sems { OnOk result (sems_of self.new ≡ sems_of self.old) }
        ensures row { OnOk result (HasRow self.new process id ops.now) }
        ensures rows { OnOk result ((c s n : ℕ) → n < row_at self.old c s → n < row_at self.new c s) }
        ensures err { OnErr result (self.new ≡ self.old) }
    {
        let Some(set) = self.sets.get(id) else {
            unreachable!()
        };
        if undoes_some(ops) {
            let nsems = set.contents.semaphores.len();
            self.undo.ensure_row(process, id, nsems)?;
        }
        Ok(())
    }

    /// Whether the operations can be done, or by which rule they are refused (semop(2)). None where the call waits. It takes
    /// no memory.
    pub fn decide_semop(
        &mut self,
        limits: &Limits,
        who: &Caller,
        id: u32,
        ops: &[SemOper],
    ) -> Option<Result<(), Rule>>
        ensures told { result ≡ without_answer (operating limits.now (sems_of self.old) who.entry.now id ops.now) }
        ensures same { self.new ≡ self.old }
    {
        if ops.is_empty() {
            return Some(Err(Rule::NoOperations));
        }
        if ops.len() as u64 > u64::from(limits.sem_opm) {
            return Some(Err(Rule::TooManyOperations));
        }
        let set = match self.permitted(who, id, wanted_by(ops)) {
            Ok(set) => set,
            Err(rule) => return Some(Err(rule)),
        };
        if !are_in(&set.contents, ops) {
            return Some(Err(Rule::SemOutOfSet));
        }
        end_by(self.try_on(who.process(), id, ops))
    }

    /// Tries the operations of a process on the set of an identifier, which there is and has the semaphores that they
    /// name.
    fn try_on(&mut self, process: u64, id: u32, ops: &[SemOper]) -> Trial
        requires there { IsSome (set_at (sems_of self.old) id) }
        requires numbers { IfSome (set_at (sems_of self.old) id)
            (λ set. are_numbers_of set.contents.semaphores ops.now ≡ true) }
        ensures told { IfSome (set_at (sems_of self.old) id)
            (λ set. result ≡ trial_on set.contents.semaphores (adj_of self.old.undone.entries process id) ops.now) }
        ensures same { self.new ≡ self.old }
    {
        let Some(set) = self.sets.contents_mut(id) else {
            unreachable!()
        };
        set.semaphores.trial(ops, self.undo.row(process, id))
    }

    /// Does the operations, which were decided and for which there is a row (semop(2)). It takes no memory.
    fn operate(&mut self, who: &Caller, id: u32, ops: &[SemOper])
        requires granted { MayOperate (sems_of self.old) who.now id ops.now }
        requires row { HasRow self.old who.now.process id ops.now }
        ensures sems { IsOperated (sems_of self.old) who.entry.now id ops.now (sems_of self.new) }
        ensures rows { (c s : ℕ) → row_at self.new c s ≡ row_at self.old c s }
    {
        let process = who.process();
        let Some(set) = self.sets.contents_mut(id) else {
            unreachable!()
        };
        set.semaphores.commit(ops, who.pid());
        set.op_time = who.now();
        lower_all(&mut self.undo, process, id, ops);
    }
}

/// How the call ends by its trial, None where it waits.
fn end_by(trial: Trial) -> Option<Result<(), Rule>>
    ensures { result ≡ end_by trial }
{
    match trial {
        Trial::Go => Some(Ok(())),
        Trial::Wait(_) => None,
        Trial::Refuse(rule) => Some(Err(rule)),
    }
}

/// Lowers a process's semadj at a set by each operation that exit undoes.
fn lower_all(undo: &mut Undo, process: u64, id: u32, ops: &[SemOper])
    requires row { AllByRecursion (λ o. undoes_at o ≡ true → o.num < row_len undo.old process id) ops.now }
    requires range { StayInRange undo.old.entries process id ops.now }
    ensures { undo.new ≡ record undo.old { entries = lowered undo.old.entries process id ops.now } }
{
    for oper in ops {
        lower(undo, process, id, *oper);
    }
}

/// Lowers a process's semadj at a set by an operation, where exit undoes it.
fn lower(undo: &mut Undo, process: u64, id: u32, oper: SemOper)
    requires row { undoes_at oper ≡ true → oper.num < row_len undo.old process id }
    requires range { undoes_at oper ≡ true → is_semadj (adj_of undo.old.entries process id oper.num -ℤ oper.op) ≡ true }
    ensures { undo.new ≡ record undo.old { entries = lowered_by undo.old.entries process id oper } }
{
    if undoes(u32::from(oper.flags)) {
        undo.lower(process, id, oper.num, oper.op);
    }
}

/// Whether exit undoes one of the operations.
fn undoes_some(ops: &[SemOper]) -> bool
    ensures { result ≡ list_any undoes_at ops.now }
{
    ops.iter().any(|oper| undoes(u32::from(oper.flags)))
}

/// The rights that operations need: those of 0 read, and others alter (semop(2)).
pub fn wanted_by(ops: &[SemOper]) -> Want
    ensures { result ≡ wanted_of ops.now }
{
    Want {
        read: reads(ops),
        alter: alters(ops),
    }
}

/// Whether one of the operations is 0.
fn reads(ops: &[SemOper]) -> bool
    ensures { result ≡ list_any (λ o. int_eq o.op (pos 0)) ops.now }
{
    ops.iter().any(|oper| oper.op == 0)
}

/// Whether one of them isn't.
fn alters(ops: &[SemOper]) -> bool
    ensures { result ≡ list_any (λ o. not (int_eq o.op (pos 0))) ops.now }
{
    ops.iter().any(|oper| oper.op != 0)
}

/// Whether each operation names a semaphore of the set.
fn are_in(set: &Set, ops: &[SemOper]) -> bool
    ensures { result ≡ are_numbers_of set.now.semaphores ops.now }
{
    let nsems = set.semaphores.len();
    ops.iter().all(|oper| usize::from(oper.num) < nsems)
}
