//! A worked set, with what semop(2) has its operations tell.

use ipc_call::{IPC_NOWAIT, Rule, SEM_UNDO, SemOper};
use sem_set::{SemSet, Trial};
use std::test::Fail;

#[test]
fn each_operation_sees_the_earlier_ones(rt: HostRuntime) -> Result<(), Fail> {
    let alloc = rt.alloc();
    let mut set = SemSet::new(alloc, 2)?;
    let up = SemOper {
        num: 0,
        op: 1,
        flags: SEM_UNDO as u16,
    };
    let down = SemOper {
        num: 0,
        op: -1,
        flags: IPC_NOWAIT as u16,
    };
    assert_eq!(rt; set.trial(&[up, down], &[]), Trial::Go);
    assert_eq!(rt; set.trial(&[down, up], &[]), Trial::Refuse(Rule::WouldWait));
    assert_eq!(rt;
        set.trial(&[up, up], &[-32767]),
        Trial::Refuse(Rule::UndoRange)
    );
    assert_eq!(rt; set.values(alloc)?.as_slice(), [0u16, 0].as_slice());
    assert_eq!(rt; (set.len(), set.get_pid(1)), (2, 0));
    Ok(())
}

const UP: SemOper = SemOper {
    num: 0,
    op: 1,
    flags: 0,
};

const DOWN: SemOper = SemOper {
    num: 0,
    op: -1,
    flags: 0,
};

#[test]
fn values_end_at_32767(rt: HostRuntime) -> Result<(), Fail> {
    let mut set = SemSet::new(rt.alloc(), 1)?;
    set.set_val(0, 32767, 1);
    assert_eq!(rt; set.trial(&[UP], &[]), Trial::Refuse(Rule::ValueRange));
    assert_eq!(rt; set.trial(&[DOWN, UP], &[]), Trial::Go);
    assert_eq!(rt;
        set.trial(&[UP, DOWN], &[]),
        Trial::Refuse(Rule::ValueRange)
    );
    Ok(())
}

#[test]
fn the_first_that_stops_decides(rt: HostRuntime) -> Result<(), Fail> {
    let mut set = SemSet::new(rt.alloc(), 2)?;
    let undone = SemOper {
        num: 1,
        op: 1,
        flags: SEM_UNDO as u16,
    };
    let semadj = [0, -32768];
    assert_eq!(rt; set.trial(&[DOWN, undone], &semadj), Trial::Wait(0));
    assert_eq!(rt;
        set.trial(&[undone, DOWN], &semadj),
        Trial::Refuse(Rule::UndoRange)
    );
    set.set_val(0, 1, 9);
    assert_eq!(rt;
        set.trial(&[DOWN, undone], &semadj),
        Trial::Refuse(Rule::UndoRange)
    );
    assert_eq!(rt; set.trial(&[DOWN, DOWN], &[]), Trial::Wait(1));
    Ok(())
}
