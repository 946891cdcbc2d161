//! What refuses calls on semaphore sets.

use crate::cases::{Case, Told};
use crate::trials::{Stopped, refused_by};
use ipc_call::{Call, Kind, Rule, Status};
use ipc_space::Space;
use sem_set::is_value;
use std::fmt::Write;

/// How many semaphores a set has.
pub(crate) fn count_of(space: &Space, id: u32) -> Option<u64> {
    match space.status_of(Kind::Sems, id) {
        Some((_, Status::Set(set))) => Some(set.nsems),
        _ => None,
    }
}

/// Tells the number of semaphores or values that doesn't fit.
pub(crate) fn explain_count(out: &mut String, case: Case<'_>) -> Told {
    match case.call {
        Call::SemGet { key, nsems, .. } => explain_nsems(out, case.space, *key, *nsems),
        Call::SetAll { id, values } => {
            let (given, has) = (values.len(), count_of(case.space, *id).unwrap_or(0));
            write!(
                out,
                "{given} values are given, and set {id} has {has} semaphores\n"
            )
        }
        _ => Ok(()),
    }
}

fn explain_nsems(out: &mut String, space: &Space, key: u32, nsems: u32) -> Told {
    let most = space.limits().sem_msl;
    if nsems <= most {
        if let Some((id, _)) = space.with_key(Kind::Sems, key) {
            let has = count_of(space, id).unwrap_or(0);
            return write!(
                out,
                "{nsems} semaphores are asked for, and set {id} of this key has {has}\n"
            );
        }
    }
    write!(
        out,
        "{nsems} semaphores are asked for; a new set has at least 1 and at most SEMMSL, {most}\n"
    )
}

/// Tells how many operations there are.
pub(crate) fn explain_operations(out: &mut String, case: Case<'_>) -> Told {
    let (Call::SemOp { ops, .. } | Call::SemTimedOp { ops, .. }) = case.call else {
        return Ok(());
    };
    let (count, most) = (ops.len(), case.space.limits().sem_opm);
    write!(
        out,
        "{count} operations are given, at least 1 and at most SEMOPM, {most}\n"
    )
}

/// Tells which semaphore the set doesn't have.
pub(crate) fn explain_number(out: &mut String, case: Case<'_>) -> Told {
    match case.call {
        Call::GetVal { id, num }
        | Call::GetPid { id, num }
        | Call::GetNcnt { id, num }
        | Call::GetZcnt { id, num }
        | Call::SetVal { id, num, .. } => {
            let has = count_of(case.space, *id).unwrap_or(0);
            write!(out, "semaphore {num}: set {id} has {has}, counted from 0\n")
        }
        Call::SemOp { id, ops } | Call::SemTimedOp { id, ops, .. } => {
            let has = count_of(case.space, *id).unwrap_or(0);
            match ops
                .as_slice()
                .iter()
                .find(|oper| u64::from(oper.num) >= has)
            {
                Some(oper) => {
                    let num = oper.num;
                    write!(out, "semaphore {num}: set {id} has {has}, counted from 0\n")
                }
                None => Ok(()),
            }
        }
        _ => Ok(()),
    }
}

/// Tells at which operation a semop stops, and the numbers there; of SETVAL and SETALL, the value that is out of range.
pub(crate) fn explain_trial(out: &mut String, case: Case<'_>) -> Told {
    match case.call {
        Call::SemOp { id, .. } | Call::SemTimedOp { id, .. } => explain_stop(out, case, *id),
        Call::SetVal { value, .. } => write!(out, "value {value}: it is 0 to 32767\n"),
        Call::SetAll { values, .. } => {
            match values.as_slice().iter().find(|value| !is_value(**value)) {
                Some(value) => write!(out, "value {value}: each is 0 to 32767\n"),
                None => Ok(()),
            }
        }
        _ => Ok(()),
    }
}

fn explain_stop(out: &mut String, case: Case<'_>, id: u32) -> Told {
    let Some(stopped) = refused_by(case.space, case.client, case.call)? else {
        return Ok(());
    };
    let Stopped {
        oper,
        value,
        adj,
        rule,
    } = stopped;
    let (num, op) = (oper.num, oper.op);
    write!(
        out,
        "the operation {num}:{op} meets semaphore {num} of set {id} at {value}, with the caller's semadj {adj}"
    )?;
    out.push_str(match rule {
        Rule::ValueRange => ", which would rise above SEMVMX, 32767\n",
        Rule::UndoRange => ", and would take the caller's semadj out of -32768 to 32767\n",
        _ => ", and has IPC_NOWAIT (04000), so the call doesn't wait\n",
    })
}
