//! A worked table of objects that hold a number.

ghost use Rattle.std.specs.Prelude.{◌≡◌};

use ipc_objects::{Object, Objects, Owner};
use ipc_perm::{Mode, Perm};
use std::process::Abort;
use std::test::Fail;

/// What is done with a table of objects.
#[derive(Clone, Copy, Debug, Drop)]
enum Step {
    /// An object of a key that holds a number is put in, where the key is free: its identifier, if a slot is usable.
    Add(u32, u32),
    /// The identifier of the object of a key.
    Find(u32),
    /// What the object of a key holds.
    Seek(u32),
    /// The number is written over that which an object holds.
    Write(u32, u32),
    /// The owner of an object becomes user 200.
    SetOwner(u32),
    FreeKey(u32),
    KeyOf(u32),
    /// What the object held.
    Remove(u32),
    NextId,
    IdAt(u16),
}

/// An object of user 100 that was created at time 1.
fn object(key: u32, contents: u32) -> Object<u32>
    ensures { result.perm.key ≡ key }
{
    Object {
        perm: Perm {
            key,
            uid: 100,
            gid: 10,
            cuid: 100,
            cgid: 10,
            mode: Mode::from_low_bits(0o600),
        },
        change_time: 1,
        contents,
    }
}

fn add(objects: &mut Objects<u32>, key: u32, contents: u32) -> Result<Option<u32>, Fail> {
    if objects.find(key).is_some() || objects.next_id().is_none() {
        return Ok(None);
    }
    Ok(Some(objects.insert(object(key, contents))?))
}

fn write(objects: &mut Objects<u32>, id: u32, contents: u32) -> Option<u32> {
    let held = objects.contents_mut(id)?;
    *held = contents;
    Some(contents)
}

fn set_owner(objects: &mut Objects<u32>, id: u32) {
    if objects.get(id).is_some() {
        let owner = Owner {
            uid: 200,
            gid: 20,
            mode: Mode::from_low_bits(0o1640),
        };
        objects.set_owner(id, owner, 9);
    }
}

fn free_key(objects: &mut Objects<u32>, id: u32) {
    if objects.get(id).is_some() {
        objects.free_key(id);
    }
}

fn remove(objects: &mut Objects<u32>, id: u32) -> Option<u32> {
    if objects.get(id).is_some() {
        Some(objects.remove(id).contents)
    } else {
        None
    }
}

/// What a step tells that changes nothing.
fn seen(objects: &Objects<u32>, step: Step) -> Option<u32> {
    match step {
        Step::Find(key) => objects.find(key).map(|found| found.0),
        Step::Seek(key) => objects.seek(key).map(|found| found.1.contents),
        Step::KeyOf(id) => objects.perm(id).map(|perm| perm.key),
        Step::NextId => objects.next_id(),
        Step::IdAt(slot) => objects.id_at(slot),
        _ => None,
    }
}

/// Does a step, and answers what it tells.
fn told(objects: &mut Objects<u32>, step: Step) -> Result<Option<u32>, Fail> {
    Ok(match step {
        Step::Add(key, contents) => add(objects, key, contents)?,
        Step::Write(id, contents) => write(objects, id, contents),
        Step::Remove(id) => remove(objects, id),
        Step::SetOwner(id) => {
            set_owner(objects, id);
            None
        }
        Step::FreeKey(id) => {
            free_key(objects, id);
            None
        }
        _ => seen(objects, step),
    })
}

/// Does these steps, each of which must tell what stands beside it.
fn follow(
    rt: &impl Abort,
    objects: &mut Objects<u32>,
    steps: &[(Step, Option<u32>)],
) -> Result<(), Fail> {
    for (step, wanted) in steps {
        assert_eq!(rt; told(objects, *step)?, *wanted, "{step:?}");
    }
    Ok(())
}

/// The object of identifier 32768 is that of key 5, user 200 is its owner, and it holds 51.
fn check_set(rt: &impl Abort, objects: &Objects<u32>) {
    let Some(set) = objects.get(32768) else {
        panic!(rt; "gone");
    };
    assert!(rt; set.perm.uid == 200 && set.perm.gid == 20 && set.perm.mode.bits() == 0o640);
    assert!(rt; set.perm.cuid == 100 && set.perm.key == 5);
    assert!(rt; set.change_time == 9 && set.contents == 51);
}

#[test]
fn objects_come_change_and_leave(rt: HostRuntime) -> Result<(), Fail> {
    let mut objects = Objects::new(rt.alloc(), 3, 1);
    let steps = [
        (Step::Add(5, 50), Some(32768)),
        (Step::Add(0, 60), Some(32769)),
        (Step::Add(0, 70), Some(32770)),
        (Step::NextId, None),
        (Step::Find(0), None),
        (Step::Find(6), None),
        (Step::Find(5), Some(32768)),
        (Step::Seek(5), Some(50)),
        (Step::Write(32768, 51), Some(51)),
        (Step::Write(0, 1), None),
        (Step::SetOwner(32768), None),
    ];
    follow(&rt, &mut objects, &steps)?;
    check_set(&rt, &objects);
    Ok(())
}

#[test]
fn keys_are_free_again(rt: HostRuntime) -> Result<(), Fail> {
    let mut objects = Objects::new(rt.alloc(), 2, 0);
    let steps = [
        (Step::Add(5, 50), Some(0)),
        (Step::FreeKey(0), None),
        (Step::Find(5), None),
        (Step::KeyOf(0), Some(0)),
        (Step::Add(5, 60), Some(1)),
        (Step::Remove(1), Some(60)),
        (Step::Find(5), None),
        (Step::KeyOf(1), None),
        (Step::Add(5, 70), Some(32769)),
        (Step::IdAt(0), Some(0)),
        (Step::IdAt(1), Some(32769)),
    ];
    follow(&rt, &mut objects, &steps)
}

#[test]
fn objects_are_found_changed_and_removed_without_memory(rt: HostRuntime) -> Result<(), Fail> {
    let mut objects = Objects::new(rt.alloc(), 3, 0);
    let steps = [
        (Step::Add(5, 50), Some(0)),
        (Step::Add(6, 60), Some(1)),
        (Step::Add(7, 70), Some(2)),
    ];
    follow(&rt, &mut objects, &steps)?;
    eprintln!(rt; "quiet begins")?;
    let steps = [
        (Step::Find(5), Some(0)),
        (Step::Seek(6), Some(60)),
        (Step::Write(1, 61), Some(61)),
        (Step::SetOwner(2), None),
        (Step::FreeKey(2), None),
        (Step::KeyOf(2), Some(0)),
        (Step::Remove(1), Some(61)),
        (Step::Remove(0), Some(50)),
        (Step::Remove(2), Some(70)),
    ];
    follow(&rt, &mut objects, &steps)?;
    eprintln!(rt; "quiet ends")?;
    Ok(())
}
