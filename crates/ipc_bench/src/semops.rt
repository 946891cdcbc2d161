// Measurements of semops and of semops beside calls that wait, through a whole namespace and its journal.

use crate::spaces::{answer, done, in_spaces, wait};
use ipc_call::{Answer, Call, Items, SEM_UNDO, SemOper};
use ipc_space::Space;
use std::alloc::{AllocError, Global};
use std::io;
use std::time::{Clock, Instant};
use test_support::measuring::{BATCH, Run, unanswered};

/// What the end of a process does to what its semops added.
#[derive(Clone, Copy, Debug)]
pub(crate) enum AtExit {
    /// It leaves that.
    Keeps,
    /// It takes that back: each operation has `SEM_UNDO`.
    Undoes,
}

impl AtExit {
    /// The flags of each operation.
    fn flags(self) -> u16 {
        match self {
            AtExit::Keeps => 0,
            AtExit::Undoes => SEM_UNDO as u16,
        }
    }
}

/// The semops of a measurement.
#[derive(Clone, Copy, Debug)]
struct Semops {
    /// How many operations each has: one at each semaphore of its set.
    operations: u16,
    at_exit: AtExit,
}

/// Semops of one operation.
const OF_ONE: Semops = Semops {
    operations: 1,
    at_exit: AtExit::Keeps,
};

/// What a semop adds to each semaphore of its set.
#[derive(Clone, Copy, Debug)]
enum Step {
    /// 1.
    Raise,
    /// -1.
    Lower,
}

impl Step {
    fn op(self) -> i16 {
        match self {
            Step::Raise => 1,
            Step::Lower => -1,
        }
    }
}

impl Semops {
    /// A semop that takes one step at each semaphore of a set.
    fn call(self, alloc: Global, id: u32, step: Step) -> Result<Call, AllocError> {
        let mut ops = Vec::new(alloc);
        for num in 0..self.operations {
            ops.push(SemOper {
                num,
                op: step.op(),
                flags: self.at_exit.flags(),
            })?;
        }
        Ok(Call::SemOp {
            id,
            ops: Items::new(ops),
        })
    }

    /// A batch of semops, which lower the semaphores of a set and raise them again.
    fn batch(self, alloc: Global, id: u32) -> Result<Vec<Call>, AllocError> {
        let mut calls = Vec::new(alloc);
        for _ in 0..BATCH / 2 {
            calls.push(self.call(alloc, id, Step::Lower)?)?;
            calls.push(self.call(alloc, id, Step::Raise)?)?;
        }
        Ok(calls)
    }

    /// Counts so many batches in a namespace, in which all clients but 0 wait on another set. Its set is raised
    /// before: that call makes the row of semadj, and the value at the end of each batch is 1.
    fn add_batches<R: Clock + AllocGlobal>(
        self,
        rt: &R,
        space: &mut Space,
        run: &mut Run,
        batches: u32,
    ) -> io::Result<()> {
        others_wait(rt.alloc(), space)?;
        let id = semget(space, u32::from(self.operations))?;
        let last = u32::from(self.operations).saturating_sub(1);
        done(space, self.call(rt.alloc(), id, Step::Raise)?)?;
        for _ in 0..batches {
            let calls = self.batch(rt.alloc(), id)?;
            let start = Instant::now(rt)?;
            make_each(space, calls)?;
            run.add_time(rt, start)?;
            run.add_answer(value(space, id, last)?);
        }
        Ok(())
    }

    /// Measures so many of them, each with the copy of its operations that the journal keeps, but without their
    /// making.
    fn run<R: Clock + AllocGlobal>(self, rt: &R, waiting: u32, calls: u32) -> io::Result<Run> {
        in_spaces(
            rt.alloc(),
            waiting.saturating_add(1),
            calls / BATCH * BATCH,
            |space, run, part| self.add_batches(rt, space, run, part / BATCH),
        )
    }
}

/// Makes a set of so many semaphores, each 0.
fn semget(space: &mut Space, nsems: u32) -> io::Result<u32> {
    let call = Call::SemGet {
        key: 0,
        nsems,
        flags: 0o600,
    };
    match answer(space, call) {
        Some(Answer::Id(id)) => Ok(id),
        _ => Err(unanswered()),
    }
}

/// The value of a semaphore.
fn value(space: &mut Space, id: u32, num: u32) -> io::Result<u32> {
    match answer(space, Call::GetVal { id, num }) {
        Some(Answer::Value(value)) => Ok(value),
        _ => Err(unanswered()),
    }
}

/// Client 0 makes calls that are answered with nothing.
fn make_each(space: &mut Space, calls: Vec<Call>) -> io::Result<()> {
    for call in calls {
        done(space, call)?;
    }
    Ok(())
}

/// All clients but 0 wait on a set of their own, for its semaphore to rise.
fn others_wait(alloc: Global, space: &mut Space) -> io::Result<()> {
    let busy = semget(space, 1)?;
    for client in 1..space.clients() {
        wait(space, client, OF_ONE.call(alloc, busy, Step::Lower)?)?;
    }
    Ok(())
}

/// Does so many operations in each semop, one at each semaphore of a set.
pub(crate) fn operate<R: Clock + AllocGlobal>(
    rt: &R,
    at_exit: AtExit,
    operations: u32,
    calls: u32,
) -> io::Result<Run> {
    let semops = Semops {
        operations: u16::try_from(operations).unwrap_or(u16::MAX),
        at_exit,
    };
    semops.run(rt, 0, calls)
}

/// Does one operation in each semop, while so many clients wait on another set.
pub(crate) fn beside_waiting<R: Clock + AllocGlobal>(
    rt: &R,
    waiting: u32,
    calls: u32,
) -> io::Result<Run> {
    OF_ONE.run(rt, waiting, calls)
}
