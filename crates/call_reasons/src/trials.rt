//! The operation at which a refused semop has stopped.

ghost use Rattle.std.specs.Prelude.{◌≡◌, ◌<◌, ◌==◌, ◌&&◌, ◌-ℤ◌, [], ℕ, pos, true, length, map, IfOk, MatchOption};
ghost use Rattle.std.specs.Prelude.{nat_lt, option_map, if◌then◌else◌};
ghost use Rattle.std.specs.List.{AllByRecursion, list_all};
ghost use Rattle.ipc_history.specs.History.{run};
ghost use Rattle.ipc_model.specs.State.{process_at};
ghost use Rattle.sem_set.specs.Sets.{is_value as is_value_in, set_to, value_of};
ghost use Rattle.sem_set.specs.Trials.{adj_in, are_in as are_numbers_of, is_semadj, trial_on, undoes as undoes_at};
ghost use Rattle.sem_undo.specs.Entries.{adj_of};
ghost use Rattle.call_reasons.specs.Trials.{IsOfDecision, can_try_in, refusal_of, refused_at as refused_at_in, refused_from, refused_in};

use ipc_call::{Call, Memory, Rule, SemOper, undoes};
use ipc_space::Space;
use sem_set::{SemSet, Trial, is_value};
use std::alloc::Global;
use std::slice::from_ref;

/// The operation at which a semop is refused, and the value and the caller's semadj that it meets after the operations before
/// it.
#[derive(Clone, Copy, Debug, PartialEq, Eq)]
pub struct Stopped {
    /// The operation.
    pub oper: SemOper,
    /// The value of its semaphore.
    pub value: i32,
    /// The caller's semadj there.
    pub adj: i32,
    /// The rule that refuses.
    pub rule: Rule,
}

/// The operation at which the semop of a client is refused by its trial; `None` of another call, and of one that its trial
/// doesn't refuse.
pub fn refused_by(space: &Space, client: u32, call: &Call) -> Result<Option<Stopped>, Memory>
    ensures stop { IfOk result (λ stopped. stopped ≡ refused_in (run space.now) client call.now) }
    ensures decided { IfOk result (IsOfDecision (run space.now) client call.now) }
{
    refused_of(space, client, call)
}

/// The same, by the definition of the operation alone.
fn refused_of(space: &Space, client: u32, call: &Call) -> Result<Option<Stopped>, Memory>
    ensures { IfOk result (λ stopped. stopped ≡ refused_in (run space.now) client call.now) }
{
    match call {
        Call::SemOp { id, ops } => refused_at(space, client, *id, ops.as_slice()),
        Call::SemTimedOp { id, ops, .. } => refused_at(space, client, *id, ops.as_slice()),
        _ => Ok(None),
    }
}

/// The operation at which the operations of a client on the set of an identifier are refused. They are tried on a copy.
fn refused_at(
    space: &Space,
    client: u32,
    id: u32,
    ops: &[SemOper],
) -> Result<Option<Stopped>, Memory>
    ensures { IfOk result (λ stopped. stopped ≡ refused_at_in (run space.now).sems (process_at (run space.now) client) id ops.now) }
{
    let values = space.values_of(id)?;
    let alloc = *values.allocator();
    let values = integers(alloc, values.as_slice())?;
    if can_try(values.as_slice(), ops) {
        try_copy(alloc, space, client, id, values.as_slice(), ops)
    } else {
        Ok(None)
    }
}

/// The same of a set with these values.
fn try_copy(
    alloc: Global,
    space: &Space,
    client: u32,
    id: u32,
    values: &[i32],
    ops: &[SemOper],
) -> Result<Option<Stopped>, Memory>
    requires { can_try_in values.now ops.now ≡ true }
    ensures { IfOk result (λ stopped. stopped
        ≡ refused_from (map (set_to 0) values.now) (adj_of (run space.now).sems.undo (process_at (run space.now) client) id) [] ops.now) }
{
    let mut set = SemSet::new(alloc, values.len())?;
    set.set_all(values, 0);
    let mut row = vec![in alloc; 0; values.len()]?;
    Ok(try_in(&mut set, &mut row, space, client, id, ops))
}

/// The same on a set, in a row of as many semadj.
fn try_in(
    set: &mut SemSet,
    row: &mut [i32],
    space: &Space,
    client: u32,
    id: u32,
    ops: &[SemOper],
) -> Option<Stopped>
    requires numbers { are_numbers_of set.old ops.now ≡ true }
    requires len { length row.old ≡ length set.old }
    ensures { result ≡ refused_from set.old (adj_of (run space.now).sems.undo (process_at (run space.now) client) id) [] ops.now }
{
    fill(row, space, client, id, ops);
    refused_on(set, row, ops)
}

/// The values as integers.
fn integers(alloc: Global, values: &[u16]) -> Result<Vec<i32>, Memory>
    ensures { IfOk result (λ integers. integers.items ≡ map (λ v. pos v) values.now) }
{
    Ok(values.iter().map(|value| i32::from(*value)).collect(alloc)?)
}

/// Whether a set with these values has the semaphores that the operations name.
fn can_try(values: &[i32], ops: &[SemOper]) -> bool
    ensures { result ≡ can_try_in values.now ops.now }
{
    are_in(values, ops) && are_values(values)
}

/// Whether each operation names one of as many semaphores as there are values.
fn are_in(values: &[i32], ops: &[SemOper]) -> bool
    ensures { result ≡ list_all (λ o. nat_lt o.num (length values.now)) ops.now }
{
    ops.iter().all(|oper| usize::from(oper.num) < values.len())
}

/// Whether each is a value of a semaphore.
fn are_values(values: &[i32]) -> bool
    ensures { result ≡ list_all is_value_in values.now }
{
    values.iter().all(|value| is_value(*value))
}

/// Sets what is there of each semaphore that an operation names to the client's semadj there.
fn fill(row: &mut [i32], space: &Space, client: u32, id: u32, ops: &[SemOper])
    requires { list_all (λ o. nat_lt o.num (length row.old)) ops.now ≡ true }
    ensures len { length row.new ≡ length row.old }
    ensures adjs { AllByRecursion
        (λ o. adj_in row.new o.num ≡ adj_of (run space.now).sems.undo (process_at (run space.now) client) id o.num) ops.now }
{
    for oper in ops {
        row[usize::from(oper.num)] = space.semadj_of(client, id, oper.num);
    }
}

/// The operation at which a trial of the operations on a set is refused, by a caller with a row of semadj. Those before it are
/// done on the set and in the row, one after another. The time is linear in the operations.
fn refused_on(set: &mut SemSet, row: &mut [i32], ops: &[SemOper]) -> Option<Stopped>
    requires numbers { are_numbers_of set.old ops.now ≡ true }
    requires len { length row.old ≡ length set.old }
    ensures stop { result ≡ refused_from set.old (adj_in row.old) [] ops.now }
    ensures rule { option_map (λ s. s.rule) result ≡ refusal_of (trial_on set.old (adj_in row.old) ops.now) }
{
    for oper in ops {
        let num = usize::from(oper.num);
        match set.trial(from_ref(oper), row) {
            Trial::Go => {
                set.commit(from_ref(oper), 0);
                lower(row, *oper);
            }
            Trial::Wait(_) => return None,
            Trial::Refuse(rule) => return Some(refusal_at(set, row, *oper, rule)),
        }
    }
    None
}

/// An operation that is refused, with what it meets.
fn refusal_at(set: &SemSet, row: &[i32], oper: SemOper, rule: Rule) -> Stopped
    requires num { oper.num < length set.now }
    requires len { length row.now ≡ length set.now }
    ensures { result ≡ record {
      oper = oper;
      value = pos (value_of set.now oper.num);
      adj = adj_in row.now oper.num;
      rule = rule;
    } }
{
    let num = usize::from(oper.num);
    Stopped {
        oper,
        value: i32::from(set.get_val(num)),
        adj: row[num],
        rule,
    }
}

/// Lowers the semadj of an operation's semaphore by it, where exit undoes it.
fn lower(row: &mut [i32], oper: SemOper)
    requires num { oper.num < length row.old }
    requires range { undoes_at oper ≡ true → is_semadj (adj_in row.old oper.num -ℤ oper.op) ≡ true }
    ensures len { length row.new ≡ length row.old }
    ensures adj { (n : ℕ) → adj_in row.new n
        ≡ (if undoes_at oper && oper.num == n then adj_in row.old n -ℤ oper.op else adj_in row.old n) }
{
    if undoes(u32::from(oper.flags)) {
        let num = usize::from(oper.num);
        row[num] = adj_without(row[num], oper.op);
    }
}

/// The semadj without an operation.
fn adj_without(adj: i32, op: i16) -> i32
    requires { is_semadj (adj -ℤ op) ≡ true }
    ensures { result ≡ adj -ℤ op }
{
    (i64::from(adj) - i64::from(op)) as i32
}
