//! A set of semaphores.

ghost use Rattle.std.specs.Prelude.{◌≡◌, ◌<◌, true, length, map, replicate, slice_set, IfOk};
ghost use Rattle.std.specs.List.{list_all};
ghost use Rattle.sem_set.specs.Exits.{any_from, undone_from};
ghost use Rattle.sem_set.specs.Sets.{is_value as is_value_in, pid_of, set_to, value_of, zeroed};
ghost use Rattle.sem_set.specs.Trials.{adj_in, are_in, trial_on, GoAtSome, committed};

use crate::exits::undo;
use crate::trials::{Met, SEMVMX, Trial, apply, run};
use ipc_call::{Memory, SemOper};
use std::alloc::Global;
use std::marker::Model;

/// A semaphore (semctl(2)).
#[derive(Clone, Copy, Debug, PartialEq, Eq)]
pub struct Semaphore {
    /// Its value (semval).
    pub value: u16,
    /// The process that set it last, 0 where none has (sempid).
    pub pid: u32,
}

/// Whether it is a value of a semaphore: 0 to SEMVMX, 32767 (semctl(2), SETVAL).
pub fn is_value(value: i32) -> bool
    ensures { result ≡ is_value_in value }
{
    (0..=SEMVMX).contains(&i64::from(value))
}

/// A semaphore set (semctl(2)). Contracts see its semaphores by number, from 0.
#[derive(Debug, Drop)]
pub struct SemSet {
    semaphores: Vec<Semaphore>,
    // What the operations of a trial meet, by semaphore number; of no meaning between two trials.
    met: Vec<Met>,
}

impl Model for SemSet {
    ghost use Rattle.std.specs.Prelude.{◌≡◌, List, length};
    ghost use Rattle.sem_set.specs.declared.set.Semaphore.{Semaphore};

    ghost Value = { List Semaphore };

    ghost view = { λ s. s.semaphores.items };

    ghost invariant = { λ s. length s.met.items ≡ length s.semaphores.items };
}

impl SemSet {
    /// A set of `nsems` semaphores whose values are 0 (semget(2)). The error comes only where an allocation fails.
    pub fn new(alloc: Global, nsems: usize) -> Result<SemSet, Memory>
        ensures { IfOk result (λ set. set ≡ replicate nsems zeroed) }
    {
        Ok(SemSet {
            semaphores: vec![in alloc; Semaphore { value: 0, pid: 0 }; nsems]?,
            met: vec![in alloc; Met { value: 0, adj: 0 }; nsems]?,
        })
    }

    /// The number of semaphores (semctl(2), sem_nsems).
    pub fn len(&self) -> usize
        ensures { result ≡ length self.now }
    {
        self.semaphores.len()
    }

    /// The value of a semaphore (semctl(2), GETVAL).
    pub fn get_val(&self, num: usize) -> u16
        requires { num < length self.now }
        ensures { result ≡ value_of self.now num }
    {
        self.semaphores[num].value
    }

    /// The process that set a semaphore last, 0 where none has (semctl(2), GETPID).
    pub fn get_pid(&self, num: usize) -> u32
        requires { num < length self.now }
        ensures { result ≡ pid_of self.now num }
    {
        self.semaphores[num].pid
    }

    /// The values by semaphore number (semctl(2), GETALL). The error comes only where an allocation fails.
    pub fn values(&self, alloc: Global) -> Result<Vec<u16>, Memory>
        ensures { IfOk result (λ values. values.items ≡ map (λ s. s.value) self.now) }
    {
        Ok(self.semaphores.iter().map(|s| s.value).collect(alloc)?)
    }

    /// Sets a semaphore to a value of 0 to SEMVMX, 32767 (semctl(2), SETVAL).
    pub fn set_val(&mut self, num: usize, value: i32, pid: u32)
        requires number { num < length self.old }
        requires value { is_value_in value ≡ true }
        ensures { self.new ≡ slice_set self.old num (set_to pid value) }
    {
        self.semaphores[num] = Semaphore {
            value: value as u16,
            pid,
        };
    }

    /// Sets each semaphore to its value of 0 to SEMVMX, 32767 (semctl(2), SETALL).
    pub fn set_all(&mut self, values: &[i32], pid: u32)
        requires count { length values.now ≡ length self.old }
        requires values { list_all is_value_in values.now ≡ true }
        ensures { self.new ≡ map (set_to pid) values.now }
    {
        for (num, value) in values.iter().enumerate() {
            self.set_val(num, *value, pid);
        }
    }

    /// Whether the operations can all be done in their order, each after the earlier ones, by a caller with these
    /// semadj by semaphore number, past whose end each is 0 (semop(2); POSIX.1-2017 XSH semop). The first that can't
    /// go on decides. The time is linear in the operations.
    pub fn trial(&mut self, ops: &[SemOper], adjs: &[i32]) -> Trial
        requires { are_in self.old ops.now ≡ true }
        ensures told { result ≡ trial_on self.old (adj_in adjs.now) ops.now }
        ensures same { self.new ≡ self.old }
    {
        match run(&self.semaphores, &mut self.met, ops, adjs) {
            Ok(()) => Trial::Go,
            Err(stop) => stop,
        }
    }

    /// Does operations that a trial lets go, whatever the semadj of its caller (semop(2)). The time is linear in the
    /// operations.
    pub fn commit(&mut self, ops: &[SemOper], pid: u32)
        requires numbers { are_in self.old ops.now ≡ true }
        requires go { GoAtSome self.old ops.now }
        ensures { self.new ≡ committed ops.now pid self.old }
    {
        apply(&mut self.semaphores, ops, pid);
    }

    /// Adds to each value the semadj of its number in a row, past whose end each is 0, as the exit of this process does,
    /// and brings it into 0 to SEMVMX, 32767 (semop(2), SEM_UNDO). Whether one wasn't 0. The time is linear in the
    /// semaphores.
    pub fn undo(&mut self, adjs: &[i32], pid: u32) -> bool
        ensures left { self.new ≡ undone_from (adj_in adjs.now) pid 0 self.old }
        ensures any { result ≡ any_from (adj_in adjs.now) 0 self.old }
    {
        undo(&mut self.semaphores, adjs, pid)
    }
}
