// Measurements of the table of slots.

use ipc_call::Limit;
use ipc_ids::{InsertFault, Slots};
use std::alloc::{AllocError, Global};
use std::io;
use std::time::{Clock, Instant};
use test_support::measuring::{BATCH, Numbers, Run, add_batch};

/// Puts a number into the lowest usable slot, and gives its identifier.
fn insert_number(table: &mut Slots<u32>, number: u32) -> Result<u32, AllocError> {
    match table.try_insert(number) {
        Ok(id) => Ok(id),
        Err(InsertFault::NoSlot(_) | InsertFault::Memory(_)) => Err(AllocError),
    }
}

/// A table with so many numbers, and their identifiers by slot.
#[derive(Debug, Drop)]
struct Filled {
    table: Slots<u32>,
    ids: Vec<u32>,
}

impl Filled {
    fn new(alloc: Global, size: u32) -> Result<Filled, AllocError> {
        let mut table = Slots::new(alloc, Limit::Slots.most(), 0);
        let mut ids = Vec::new(alloc);
        for number in 0..size {
            ids.push(insert_number(&mut table, number)?)?;
        }
        Ok(Filled { table, ids })
    }

    /// The identifier of the number in a slot.
    fn id_of(&self, slot: u32) -> u32 {
        self.ids.get(slot as usize).copied().unwrap_or(u32::MAX)
    }

    /// Removes so many numbers, from the slot of a first one on.
    fn remove_batch(&mut self, first: u32, size: u32) {
        for step in 0..BATCH {
            let id = self.id_of(first.wrapping_add(step) % size.max(1));
            let _ = self.table.remove(id);
        }
    }

    /// Fills the lowest usable slots.
    fn insert_batch(&mut self) -> Result<(), AllocError> {
        for number in 0..BATCH {
            let id = insert_number(&mut self.table, number)?;
            // Identifiers of one slot are as far apart as there may be slots.
            let slot = (id % Limit::Slots.most()) as usize;
            if let Some(own) = self.ids.get_mut(slot) {
                *own = id;
            }
        }
        Ok(())
    }
}

/// Looks up the objects of identifiers.
pub(crate) fn get<R: Clock + AllocGlobal>(rt: &R, size: u32, calls: u32) -> io::Result<Run> {
    let filled = Filled::new(rt.alloc(), size)?;
    let mut numbers = Numbers::new();
    let mut run = Run::new(calls);
    let start = Instant::now(rt)?;
    for _ in 0..calls {
        // A table that only grew has an object's slot for its identifier.
        let object = filled.table.get(numbers.below(size));
        run.add_answer(object.copied().unwrap_or(u32::MAX));
    }
    run.add_time(rt, start)?;
    Ok(run)
}

/// Asks for the next identifier, with a batch of slots vacant.
pub(crate) fn next_id<R: Clock + AllocGlobal>(rt: &R, size: u32, calls: u32) -> io::Result<Run> {
    let mut filled = Filled::new(rt.alloc(), size)?;
    filled.remove_batch(0, size);
    let mut run = Run::new(calls);
    let start = Instant::now(rt)?;
    for _ in 0..calls {
        run.add_answer(filled.table.next_id().unwrap_or(u32::MAX));
    }
    run.add_time(rt, start)?;
    Ok(run)
}

/// Removes objects batch by batch, and fills the lowest usable slots, which are theirs: what the first took,
/// and what the second.
pub(crate) fn remove_and_insert<R: Clock + AllocGlobal>(
    rt: &R,
    size: u32,
    calls: u32,
) -> io::Result<[Run; 2]> {
    let mut filled = Filled::new(rt.alloc(), size)?;
    let mut numbers = Numbers::new();
    let mut runs = [Run::new(calls / BATCH * BATCH); 2];
    for _ in 0..calls / BATCH {
        let first = numbers.below(size);
        let start = Instant::now(rt)?;
        filled.remove_batch(first, size);
        let middle = Instant::now(rt)?;
        filled.insert_batch()?;
        let end = Instant::now(rt)?;
        add_batch(&mut runs, start, middle, end, filled.id_of(first));
    }
    Ok(runs)
}
