//! Measurements: how long some calls took, a sum over what they answered, and the limits under which they are made.

ghost use Rattle.std.specs.Prelude.{IsTrue};
ghost use Rattle.ipc_call.specs.Limits.{are_in_range};

use ipc_call::{Limit, Limits};
use std::io;
use std::time::{Clock, Instant};

/// How often each measurement is made. The median counts.
pub const RUNS: u32 = 5;

/// How many calls stand between two readings of the time, where each is undone by another.
pub const BATCH: u32 = 16;

/// How many calls are made in one namespace, or pairs of calls, since its journal keeps each: whole batches.
pub const KEPT: u32 = 1_024;

/// One measurement.
#[derive(Clone, Copy, Debug)]
pub struct Run {
    /// How many calls are timed.
    pub calls: u32,
    pub nanoseconds: u64,
    /// A sum over what the calls answered, so that it is the same on every machine.
    pub sum: u64,
}

impl Run {
    /// Nothing measured yet, of so many calls.
    pub fn new(calls: u32) -> Run {
        Run {
            calls,
            nanoseconds: 0,
            sum: 0,
        }
    }

    /// So many calls of each of some clients, all made since a moment, and what each client's came to.
    pub fn of_each(rt: &impl Clock, start: Instant, each: u32, sums: &[u32]) -> io::Result<Run> {
        let clients = u32::try_from(sums.len()).unwrap_or(u32::MAX);
        let mut run = Run::new(each.saturating_mul(clients));
        run.add_time(rt, start)?;
        for sum in sums {
            run.add_answer(*sum);
        }
        Ok(run)
    }

    /// Counts the time from a moment to another.
    pub fn add_time_between(&mut self, start: Instant, end: Instant) {
        let passed = end
            .duration_since(start)
            .as_nanos()
            .min(u128::from(u64::MAX)) as u64;
        self.nanoseconds = self.nanoseconds.saturating_add(passed);
    }

    /// Counts the time since a moment.
    pub fn add_time(&mut self, rt: &impl Clock, start: Instant) -> io::Result<()> {
        self.add_time_between(start, Instant::now(rt)?);
        Ok(())
    }

    /// Counts an answer.
    pub fn add_answer(&mut self, answer: u32) {
        self.sum = self.sum.wrapping_mul(31).wrapping_add(u64::from(answer));
    }

    /// The time of one call, in tenths of a nanosecond.
    pub fn tenths_of_nanoseconds(self) -> u64 {
        self.nanoseconds.saturating_mul(10) / u64::from(self.calls.max(1))
    }
}

/// A call of a measurement had another answer than it must have.
pub fn unanswered() -> io::Error {
    io::Error::from(io::ErrorKind::Other)
}

/// Counts a batch in two measurements of calls that undo one another: the first half of the batch ends at
/// `middle`.
pub fn add_batch(runs: &mut [Run; 2], start: Instant, middle: Instant, end: Instant, answer: u32) {
    runs[0].add_time_between(start, middle);
    runs[1].add_time_between(middle, end);
    for run in runs {
        run.add_answer(answer);
    }
}

/// The run of median time.
pub fn median(mut runs: Vec<Run>) -> Run {
    runs.as_mut_slice()
        .sort_unstable_by_key(|run| run.nanoseconds);
    let middle = runs.len() / 2;
    runs.get(middle).copied().unwrap_or(Run::new(0))
}

/// Numbers in no visible order, the same on every run (a linear congruence).
#[derive(Debug, Drop)]
pub struct Numbers {
    state: u32,
}

impl Numbers {
    /// From the first on.
    pub fn new() -> Numbers {
        Numbers { state: 1 }
    }

    /// The next number below a limit, 0 below none.
    pub fn below(&mut self, limit: u32) -> u32 {
        self.state = self
            .state
            .wrapping_mul(1_664_525)
            .wrapping_add(1_013_904_223);
        (self.state >> 8) % limit.max(1)
    }
}

/// The key of an object by its number: keys aren't in the order of the numbers, and none is 0.
pub fn key_of(number: u32) -> u32 {
    number.wrapping_add(1).wrapping_mul(2_654_435_761)
}

/// The default limits, but for as many slots, and as many messages in a queue, as there may be.
pub fn widest_limits() -> Limits
    ensures { IsTrue (are_in_range result) }
{
    Limits::default()
        .with_limit(Limit::Slots, Limit::Slots.most())
        .with_limit(Limit::MsgMnb, Limit::MsgMnb.most())
}
