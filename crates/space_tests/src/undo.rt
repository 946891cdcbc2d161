//! Worked rows of semadj, with what semop(2) and semctl(2) have them become.

use sem_undo::Undo;
use std::process::Abort;
use std::test::Fail;

/// What is done with the rows of semadj: a process, a set, and a semaphore number or a count.
#[derive(Clone, Copy, Debug, Drop)]
enum Step {
    /// A row has room for so many.
    Ensure(u64, u32, usize),
    /// A semadj is lowered by so much.
    Lower(u64, u32, u16, i16),
    /// The semadj of a semaphore become 0.
    Clear(u32, u32),
    ClearSet(u32),
    RemoveSet(u32),
    Len(u64, u32),
    Adj(u64, u32, u16),
}

/// Lowers a semadj for which there is a row, and which stays in its range, and answers what it is then.
fn lower(undo: &mut Undo, process: u64, set: u32, num: u16, by: i16) -> Option<i64> {
    let after = i64::from(undo.adj(process, set, num)) - i64::from(by);
    if usize::from(num) >= undo.row(process, set).len() || after < -32768 || after > 32767 {
        return None;
    }
    undo.lower(process, set, num, by);
    Some(after)
}

/// Does a step that tells nothing.
fn clear(undo: &mut Undo, step: Step) -> Option<i64> {
    match step {
        Step::Clear(set, num) => undo.clear(set, num),
        Step::ClearSet(set) => undo.clear_set(set),
        Step::RemoveSet(set) => undo.remove_set(set),
        _ => {}
    }
    None
}

/// Does a step, and answers what it tells.
fn told(undo: &mut Undo, step: Step) -> Result<Option<i64>, Fail> {
    Ok(match step {
        Step::Ensure(process, set, len) => {
            undo.ensure_row(process, set, len)?;
            Some(undo.row(process, set).len() as i64)
        }
        Step::Lower(process, set, num, by) => lower(undo, process, set, num, by),
        Step::Len(process, set) => Some(undo.row(process, set).len() as i64),
        Step::Adj(process, set, num) => Some(i64::from(undo.adj(process, set, num))),
        _ => clear(undo, step),
    })
}

/// Does these steps, each of which must tell what stands beside it.
fn follow(rt: &impl Abort, undo: &mut Undo, steps: &[(Step, Option<i64>)]) -> Result<(), Fail> {
    for (step, wanted) in steps {
        assert_eq!(rt; told(undo, *step)?, *wanted, "{step:?}");
    }
    Ok(())
}

#[test]
fn operations_lower_the_semadj_of_their_client(rt: HostRuntime) -> Result<(), Fail> {
    let mut undo = Undo::new(rt.alloc());
    let steps = [
        (Step::Len(0, 7), Some(0)),
        (Step::Lower(0, 7, 0, 1), None),
        (Step::Ensure(0, 7, 2), Some(2)),
        (Step::Ensure(63, 7, 2), Some(2)),
        (Step::Lower(0, 7, 1, 3), Some(-3)),
        (Step::Lower(63, 7, 1, -5), Some(5)),
        (Step::Ensure(0, 7, 2), Some(2)),
        (Step::Adj(0, 7, 0), Some(0)),
        (Step::Adj(0, 7, 1), Some(-3)),
        (Step::Adj(0, 7, 2), Some(0)),
        (Step::Adj(63, 7, 0), Some(0)),
        (Step::Lower(0, 7, 1, 32766), None),
        (Step::Lower(0, 7, 1, 32765), Some(-32768)),
        (Step::Lower(0, 7, 1, -32768), Some(0)),
        (Step::Adj(63, 7, 1), Some(5)),
    ];
    follow(&rt, &mut undo, &steps)
}

#[test]
fn a_row_that_grows_keeps_its_semadj(rt: HostRuntime) -> Result<(), Fail> {
    let mut undo = Undo::new(rt.alloc());
    let steps = [
        (Step::Ensure(3, 7, 1), Some(1)),
        (Step::Lower(3, 7, 0, 5), Some(-5)),
        (Step::Ensure(3, 7, 3), Some(3)),
        (Step::Adj(3, 7, 0), Some(-5)),
        (Step::Adj(3, 7, 2), Some(0)),
        (Step::Ensure(3, 7, 2), Some(3)),
    ];
    follow(&rt, &mut undo, &steps)
}

#[test]
fn values_that_are_set_clear_the_semadj_of_all(rt: HostRuntime) -> Result<(), Fail> {
    let mut undo = Undo::new(rt.alloc());
    for client in [0, 9, 63] {
        for set in [3, 4] {
            let steps = [
                (Step::Ensure(client, set, 2), Some(2)),
                (Step::Lower(client, set, 0, 1), Some(-1)),
                (Step::Lower(client, set, 1, 2), Some(-2)),
            ];
            follow(&rt, &mut undo, &steps)?;
        }
    }
    let steps = [
        (Step::Clear(3, 0), None),
        (Step::Clear(3, 2), None),
        (Step::Adj(0, 3, 0), Some(0)),
        (Step::Adj(0, 3, 1), Some(-2)),
        (Step::Adj(63, 3, 1), Some(-2)),
        (Step::ClearSet(3), None),
        (Step::Adj(9, 3, 1), Some(0)),
        (Step::Adj(9, 4, 0), Some(-1)),
        (Step::Adj(9, 4, 1), Some(-2)),
        (Step::RemoveSet(4), None),
        (Step::Len(63, 3), Some(2)),
        (Step::Len(63, 4), Some(0)),
    ];
    follow(&rt, &mut undo, &steps)
}

#[test]
fn exit_takes_each_row_once(rt: HostRuntime) -> Result<(), Fail> {
    let mut undo = Undo::new(rt.alloc());
    for set in [32768, 5, u32::MAX] {
        let steps = [
            (Step::Ensure(1, set, 1), Some(1)),
            (Step::Ensure(2, set, 1), Some(1)),
            (Step::Lower(1, set, 0, -4), Some(4)),
        ];
        follow(&rt, &mut undo, &steps)?;
    }
    for want in [5, 32768, u32::MAX] {
        match undo.take_all(1) {
            None => return Err(Fail::from("no row")),
            Some((set, row)) => assert!(rt; set == want && row.as_slice() == [4].as_slice()),
        }
    }
    assert!(rt; undo.take_all(1).is_none() && undo.take_all(0).is_none());
    follow(
        &rt,
        &mut undo,
        &[(Step::Len(2, 5), Some(1)), (Step::Adj(2, 5, 0), Some(0))],
    )
}

#[test]
fn rows_that_are_there_change_and_go_without_memory(rt: HostRuntime) -> Result<(), Fail> {
    let mut undo = Undo::new(rt.alloc());
    let steps = [
        (Step::Ensure(0, 7, 2), Some(2)),
        (Step::Ensure(0, 8, 2), Some(2)),
        (Step::Ensure(1, 7, 2), Some(2)),
    ];
    follow(&rt, &mut undo, &steps)?;
    eprintln!(rt; "quiet begins")?;
    let steps = [
        (Step::Lower(0, 7, 1, 3), Some(-3)),
        (Step::Lower(1, 7, 0, 1), Some(-1)),
        (Step::Lower(0, 8, 0, 2), Some(-2)),
        (Step::Clear(7, 0), None),
        (Step::ClearSet(8), None),
        (Step::Adj(0, 7, 1), Some(-3)),
    ];
    follow(&rt, &mut undo, &steps)?;
    assert!(rt; undo.take_all(0).is_some_and(|row| row.0 == 7));
    undo.remove_set(7);
    eprintln!(rt; "quiet ends")?;
    Ok(())
}
