//! Worked tables of slots and of keys.

use ipc_ids::{InsertFault, Keys, Slots, id_of};
use std::process::Abort;
use std::test::Fail;

/// What is done with a table of slots, whose objects are numbers.
#[derive(Clone, Copy, Debug, Drop)]
enum Step {
    /// An object is put in: its identifier, or None where there is no slot.
    Insert(u32),
    Remove(u32),
    Get(u32),
    /// 7 is written over the object of an identifier.
    PutSeven(u32),
    NextId,
    IdAt(u16),
    /// 1 for a slot that is retired.
    IsRetired(u16),
}

fn insert(slots: &mut Slots<u32>, object: u32) -> Result<Option<u32>, Fail> {
    match slots.try_insert(object) {
        Ok(id) => Ok(Some(id)),
        Err(InsertFault::NoSlot(back)) if back == object => Ok(None),
        Err(InsertFault::NoSlot(_)) => Err(Fail::from("another object comes back")),
        Err(InsertFault::Memory(_)) => Err(Fail::from("no memory")),
    }
}

fn put_seven(slots: &mut Slots<u32>, id: u32) -> Option<u32> {
    let object = slots.get_mut(id)?;
    *object = 7;
    Some(7)
}

/// Does a step, and answers what it tells.
fn told(slots: &mut Slots<u32>, step: Step) -> Result<Option<u32>, Fail> {
    Ok(match step {
        Step::Insert(object) => insert(slots, object)?,
        Step::Remove(id) => slots.remove(id),
        Step::Get(id) => slots.get(id).copied(),
        Step::PutSeven(id) => put_seven(slots, id),
        Step::NextId => slots.next_id(),
        Step::IdAt(slot) => slots.id_at(slot),
        Step::IsRetired(slot) => slots.retired(slot).then_some(1),
    })
}

/// Does these steps, each of which must tell what stands beside it.
fn follow(
    rt: &impl Abort,
    slots: &mut Slots<u32>,
    steps: &[(Step, Option<u32>)],
) -> Result<(), Fail> {
    for (step, wanted) in steps {
        assert_eq!(rt; told(slots, *step)?, *wanted, "{step:?}");
    }
    Ok(())
}

#[test]
fn identifiers_of_the_first_and_the_last_slot(rt: HostRuntime) {
    assert_eq!(rt; id_of(65535, 32767), 2147483647);
    assert_eq!(rt; id_of(0, 0), 0);
    assert_eq!(rt; id_of(3, 5), 98309);
}

#[test]
fn the_lowest_slot_is_used_again(rt: HostRuntime) -> Result<(), Fail> {
    for (a, b, c) in [
        (0, 1, 2),
        (0, 2, 1),
        (1, 0, 2),
        (1, 2, 0),
        (2, 0, 1),
        (2, 1, 0),
    ] {
        let mut slots = Slots::new(rt.alloc(), 3, 0);
        let steps = [
            (Step::Insert(0), Some(0)),
            (Step::Insert(1), Some(1)),
            (Step::Insert(2), Some(2)),
            (Step::Insert(9), None),
            (Step::Remove(a), Some(a)),
            (Step::Remove(b), Some(b)),
            (Step::Remove(c), Some(c)),
            (Step::Insert(3), Some(32768)),
            (Step::Insert(4), Some(32769)),
            (Step::Insert(5), Some(32770)),
            (Step::NextId, None),
        ];
        follow(&rt, &mut slots, &steps)?;
    }
    Ok(())
}

/// The object of slot 0 has a higher identifier than that of slot 2.
#[test]
fn identifiers_stand_by_their_slots(rt: HostRuntime) -> Result<(), Fail> {
    let mut slots = Slots::new(rt.alloc(), 4, 0);
    let steps = [
        (Step::Insert(0), Some(0)),
        (Step::Insert(1), Some(1)),
        (Step::Insert(2), Some(2)),
        (Step::Remove(0), Some(0)),
        (Step::Insert(7), Some(32768)),
        (Step::Remove(1), Some(1)),
    ];
    follow(&rt, &mut slots, &steps)?;
    assert!(rt; slots.ids()?.as_slice() == [32768, 2].as_slice());
    Ok(())
}

#[test]
fn the_last_sequence_number_retires_a_slot(rt: HostRuntime) -> Result<(), Fail> {
    let mut slots = Slots::new(rt.alloc(), 1, 65535);
    let steps = [
        (Step::Insert(4), Some(2147450880)),
        (Step::IsRetired(0), None),
        (Step::Remove(2147450880), Some(4)),
        (Step::IsRetired(0), Some(1)),
        (Step::NextId, None),
        (Step::Insert(4), None),
        (Step::Remove(2147450880), None),
        (Step::Get(0), None),
        (Step::IdAt(0), None),
    ];
    follow(&rt, &mut slots, &steps)
}

#[test]
fn a_table_of_no_slot_refuses(rt: HostRuntime) -> Result<(), Fail> {
    let mut slots = Slots::new(rt.alloc(), 0, 0);
    let steps = [
        (Step::NextId, None),
        (Step::Insert(1), None),
        (Step::IdAt(0), None),
    ];
    follow(&rt, &mut slots, &steps)
}

#[test]
fn identifiers_that_name_nothing(rt: HostRuntime) -> Result<(), Fail> {
    let mut slots = Slots::new(rt.alloc(), 2, 0);
    let steps = [
        (Step::NextId, Some(0)),
        (Step::Insert(5), Some(0)),
        (Step::NextId, Some(1)),
        (Step::Get(0), Some(5)),
        (Step::Get(1), None),
        (Step::Get(2), None),
        (Step::Get(32768), None),
        (Step::Get(4294967295), None),
        (Step::IdAt(0), Some(0)),
        (Step::IdAt(1), None),
        (Step::IdAt(2), None),
        (Step::IdAt(32768), None),
        (Step::IsRetired(32767), None),
        (Step::IsRetired(65535), None),
        (Step::PutSeven(0), Some(7)),
        (Step::PutSeven(1), None),
        (Step::Get(0), Some(7)),
        (Step::Remove(1), None),
        (Step::Remove(0), Some(7)),
        (Step::Get(0), None),
        (Step::PutSeven(0), None),
        (Step::Remove(0), None),
        (Step::Insert(8), Some(32768)),
        (Step::Get(0), None),
        (Step::Get(32768), Some(8)),
        (Step::IdAt(0), Some(32768)),
    ];
    follow(&rt, &mut slots, &steps)
}

#[test]
fn all_slots_are_used(rt: HostRuntime) -> Result<(), Fail> {
    let mut slots = Slots::new(rt.alloc(), 32768, 1);
    for slot in 0..32768 {
        assert!(rt; insert(&mut slots, slot)? == Some(32768 + slot));
    }
    let steps = [
        (Step::Insert(0), None),
        (Step::Remove(65535), Some(32767)),
        (Step::Remove(32773), Some(5)),
        (Step::Insert(1), Some(65541)),
        (Step::Insert(2), Some(98303)),
        (Step::Insert(3), None),
    ];
    follow(&rt, &mut slots, &steps)
}

/// Binds a key that is free and isn't 0, and answers whether it was.
fn bind(keys: &mut Keys, key: u32, id: u32) -> Result<bool, Fail> {
    match keys.find(key) {
        None if key != 0 => {
            keys.bind(key, id)?;
            Ok(true)
        }
        _ => Ok(false),
    }
}

#[test]
fn keys_are_bound_and_unbound(rt: HostRuntime) -> Result<(), Fail> {
    let mut keys = Keys::new(rt.alloc());
    keys.unbind(5);
    assert!(rt; bind(&mut keys, 5, 32768)? && !bind(&mut keys, 5, 1)? && !bind(&mut keys, 0, 1)?);
    assert!(rt; keys.find(5) == Some(32768) && keys.find(6).is_none() && keys.find(0).is_none());
    keys.unbind(5);
    assert!(rt; bind(&mut keys, 6, 3)? && bind(&mut keys, 5, 65536)?);
    assert!(rt; keys.find(5) == Some(65536) && keys.find(6) == Some(3));
    Ok(())
}
