//! What the exit of a process leaves of a set (semop(2), SEM_UNDO).

ghost use Rattle.std.specs.Prelude.{◌≡◌};
ghost use Rattle.sem_set.specs.Exits.{any_from, brought as brought_in, undone as undone_by, undone_from};
ghost use Rattle.sem_set.specs.Trials.{adj_in};

use crate::set::Semaphore;
use crate::trials::{SEMVMX, adj_at};

/// Adds to each value the semadj of its number in a row. Whether one wasn't 0.
pub(crate) fn undo(semaphores: &mut [Semaphore], adjs: &[i32], pid: u32) -> bool
    ensures left { semaphores.new ≡ undone_from (adj_in adjs.now) pid 0 semaphores.old }
    ensures any { result ≡ any_from (adj_in adjs.now) 0 semaphores.old }
{
    let mut any = false;
    for num in 0..semaphores.len() {
        let adj = adj_at(adjs, num);
        semaphores[num] = undone(semaphores[num], adj, pid);
        any |= adj != 0;
    }
    any
}

/// A semaphore after the exit of a process with this semadj there.
fn undone(semaphore: Semaphore, adj: i32, pid: u32) -> Semaphore
    ensures { result ≡ undone_by adj pid semaphore }
{
    if adj == 0 {
        return semaphore;
    }
    Semaphore {
        value: brought(i64::from(semaphore.value) + i64::from(adj)),
        pid,
    }
}

/// The value of a semaphore that is nearest.
fn brought(value: i64) -> u16
    ensures { result ≡ brought_in value }
{
    value.clamp(0, SEMVMX) as u16
}
