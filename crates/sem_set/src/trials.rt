//! The operations of a semop: whether they can all be done, and if not, which stops and why; and what they leave.

ghost use Rattle.std.specs.Prelude.{◌≡◌, ◌<◌, ◌&&◌, ◌+ℤ◌, ◌-ℤ◌, ◌≤ℤ◌, pos, not, []};
ghost use Rattle.std.specs.Prelude.{if◌then◌else◌, true, false, length, MatchResult};
ghost use Rattle.ipc_call.specs.Flags.{has_flag, ipc_nowait};
ghost use Rattle.sem_set.specs.Trials.{
  GoAtSome,
  adj_in,
  are_in,
  committed,
  is_semadj as is_semadj_in,
  must_wait as must_wait_at,
  stopped_by,
  trial_on,
  undoes as undoes_at,
};
ghost use Rattle.sem_set.specs.Sets.{semvmx, set_to};
ghost use Rattle.sem_set.specs.Met.{met_after, met_at};

use crate::set::Semaphore;
use ipc_call::{Rule, SemOper, may_wait, undoes};

/// The greatest value of a semaphore.
pub(crate) const SEMVMX: i64 = 32767;

/// What a trial of operations tells (semop(2)).
#[derive(Clone, Copy, Debug, PartialEq, Eq)]
pub enum Trial {
    /// All can be done.
    Go,
    /// The operation at this place, from 0, can't go on now, and the call waits.
    Wait(usize),
    /// The call is refused: `ValueRange`, `WouldWait` where the operation that can't go on has `IPC_NOWAIT`, or
    /// `UndoRange`.
    Refuse(Rule),
}

/// What an operation meets: the value of its semaphore and the caller's semadj there, after the earlier operations.
#[derive(Clone, Copy, Debug, PartialEq, Eq)]
pub(crate) struct Met {
    pub(crate) value: i32,
    pub(crate) adj: i32,
}

impl Met {
    /// What the next operation on the semaphore meets after this one, or what stops this one at its place.
    fn after(self, place: usize, oper: SemOper) -> Result<Met, Trial>
        ensures { MatchResult result
            (λ met. (stopped_by place self.value self.adj oper ≡ None) × (met ≡ met_after self oper))
            (λ stop. stopped_by place self.value self.adj oper ≡ Some stop) }
    {
        if self.value_with(oper) > SEMVMX {
            Err(Trial::Refuse(Rule::ValueRange))
        } else if self.must_wait(oper) {
            Err(waiting(place, oper))
        } else if self.undoes_too_far(oper) {
            Err(Trial::Refuse(Rule::UndoRange))
        } else {
            Ok(self.moved(oper))
        }
    }

    /// The value with an operation.
    fn value_with(self, oper: SemOper) -> i64
        ensures { result ≡ self.value +ℤ oper.op }
    {
        i64::from(self.value) + i64::from(oper.op)
    }

    /// The semadj without an operation.
    fn adj_without(self, oper: SemOper) -> i64
        ensures { result ≡ self.adj -ℤ oper.op }
    {
        i64::from(self.adj) - i64::from(oper.op)
    }

    /// Whether an operation can't go on: there isn't enough to subtract, or it waits for 0.
    fn must_wait(self, oper: SemOper) -> bool
        ensures { result ≡ must_wait_at self.value oper }
    {
        self.value_with(oper) < 0 || (oper.op == 0 && self.value != 0)
    }

    /// Whether an operation that exit undoes would take the semadj out of its range.
    fn undoes_too_far(self, oper: SemOper) -> bool
        ensures { result ≡ (undoes_at oper && not (is_semadj_in (self.adj -ℤ oper.op))) }
    {
        undoes(u32::from(oper.flags)) && !is_semadj(self.adj_without(oper))
    }

    /// What the next operation on the semaphore meets.
    fn moved(self, oper: SemOper) -> Met
        requires least { pos 0 ≤ℤ (self.value +ℤ oper.op) }
        requires most { (self.value +ℤ oper.op) ≤ℤ semvmx }
        requires adj { (undoes_at oper && not (is_semadj_in (self.adj -ℤ oper.op))) ≡ false }
        ensures { result ≡ met_after self oper }
    {
        let value = self.value_with(oper) as i32;
        if undoes(u32::from(oper.flags)) {
            let adj = self.adj_without(oper) as i32;
            Met { value, adj }
        } else {
            Met { value, ..self }
        }
    }
}

/// What an operation that can't go on tells.
fn waiting(place: usize, oper: SemOper) -> Trial
    ensures { result ≡ (if has_flag oper.flags ipc_nowait then Trial.Refuse Rule.WouldWait else Trial.Wait place) }
{
    if may_wait(u32::from(oper.flags)) {
        Trial::Wait(place)
    } else {
        Trial::Refuse(Rule::WouldWait)
    }
}

/// Whether a semadj is in its range.
fn is_semadj(adj: i64) -> bool
    ensures { result ≡ is_semadj_in adj }
{
    -32768 <= adj && adj <= 32767
}

/// What the first operation on a semaphore meets.
fn met_first(semaphores: &[Semaphore], adjs: &[i32], num: usize) -> Met
    requires { num < length semaphores.now }
    ensures { result ≡ met_at semaphores.now (adj_in adjs.now) [] num }
{
    Met {
        value: i32::from(semaphores[num].value),
        adj: adj_at(adjs, num),
    }
}

/// The semadj of a semaphore number in a row; past its end 0.
pub(crate) fn adj_at(adjs: &[i32], num: usize) -> i32
    ensures { result ≡ adj_in adjs.now num }
{
    match adjs.get(num) {
        None => 0,
        Some(adj) => *adj,
    }
}

/// Goes through the operations in their order, and keeps in `met` what the next one on each semaphore meets. A first
/// pass writes what the first ones meet, of the semaphores that are named alone.
pub(crate) fn run(
    semaphores: &[Semaphore],
    met: &mut [Met],
    ops: &[SemOper],
    adjs: &[i32],
) -> Result<(), Trial>
    requires len { length met.old ≡ length semaphores.now }
    requires numbers { are_in semaphores.now ops.now ≡ true }
    ensures { MatchResult result
        (λ _. trial_on semaphores.now (adj_in adjs.now) ops.now ≡ Trial.Go)
        (λ stop. trial_on semaphores.now (adj_in adjs.now) ops.now ≡ stop) }
{
    for named in ops {
        let num = usize::from(named.num);
        met[num] = met_first(semaphores, adjs, num);
    }
    for (place, oper) in ops.iter().enumerate() {
        let num = usize::from(oper.num);
        met[num] = met[num].after(place, *oper)?;
    }
    Ok(())
}

/// Does operations that a trial lets go.
pub(crate) fn apply(semaphores: &mut [Semaphore], ops: &[SemOper], pid: u32)
    requires numbers { are_in semaphores.old ops.now ≡ true }
    requires go { GoAtSome semaphores.old ops.now }
    ensures { semaphores.new ≡ committed ops.now pid semaphores.old }
{
    for oper in ops {
        let num = usize::from(oper.num);
        semaphores[num] = changed(semaphores[num], *oper, pid);
    }
}

/// A semaphore after an operation of a process.
fn changed(semaphore: Semaphore, oper: SemOper, pid: u32) -> Semaphore
    requires least { pos 0 ≤ℤ (pos semaphore.value +ℤ oper.op) }
    requires most { (pos semaphore.value +ℤ oper.op) ≤ℤ semvmx }
    ensures { result ≡ set_to pid (pos semaphore.value +ℤ oper.op) }
{
    Semaphore {
        value: (i32::from(semaphore.value) + i32::from(oper.op)) as u16,
        pid,
    }
}
