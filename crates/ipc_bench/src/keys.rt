// Measurements of the table of keys.

use ipc_ids::Keys;
use std::alloc::{AllocError, Global};
use std::io;
use std::time::{Clock, Instant};
use test_support::measuring::{BATCH, Numbers, Run, add_batch, key_of};

/// Binds the key of a number to that number.
fn bind_number(keys: &mut Keys, number: u32) -> Result<(), AllocError> {
    let key = key_of(number);
    if key != 0 && keys.find(key).is_none() {
        keys.bind(key, number)?;
    }
    Ok(())
}

/// The keys of so many numbers, each bound.
fn bound(alloc: Global, size: u32) -> Result<Keys, AllocError> {
    let mut keys = Keys::new(alloc);
    for number in 0..size {
        bind_number(&mut keys, number)?;
    }
    Ok(keys)
}

/// Looks up keys that are bound.
pub(crate) fn find<R: Clock + AllocGlobal>(rt: &R, size: u32, calls: u32) -> io::Result<Run> {
    let keys = bound(rt.alloc(), size)?;
    let mut numbers = Numbers::new();
    let mut run = Run::new(calls);
    let start = Instant::now(rt)?;
    for _ in 0..calls {
        let id = keys.find(key_of(numbers.below(size)));
        run.add_answer(id.unwrap_or(u32::MAX));
    }
    run.add_time(rt, start)?;
    Ok(run)
}

/// Unbinds keys batch by batch, and then looks each key up, which isn't bound, and binds it again: what the
/// first took, and what the second.
pub(crate) fn unbind_and_bind<R: Clock + AllocGlobal>(
    rt: &R,
    size: u32,
    calls: u32,
) -> io::Result<[Run; 2]> {
    let mut keys = bound(rt.alloc(), size)?;
    let mut numbers = Numbers::new();
    let mut runs = [Run::new(calls / BATCH * BATCH); 2];
    for _ in 0..calls / BATCH {
        let first = numbers.below(size);
        let start = Instant::now(rt)?;
        for step in 0..BATCH {
            keys.unbind(key_of(first.wrapping_add(step) % size.max(1)));
        }
        let middle = Instant::now(rt)?;
        for step in 0..BATCH {
            bind_number(&mut keys, first.wrapping_add(step) % size.max(1))?;
        }
        let end = Instant::now(rt)?;
        let answer = keys.find(key_of(first)).unwrap_or(u32::MAX);
        add_batch(&mut runs, start, middle, end, answer);
    }
    Ok(runs)
}
