//! Random calls: of every kind but those on processes and threads, and these.

use crate::numbers::Numbers;
use ipc_call::{
    Boxed, Call, IPC_CREAT, IPC_NOWAIT, Identity, Items, Kind, MSG_EXCEPT, MSG_NOERROR, Memory,
    Row, SEM_UNDO, SHM_RDONLY, SemOper,
};
use std::alloc::Global;

/// Which calls a client makes at random.
#[derive(Clone, Copy, Debug, PartialEq, Eq)]
pub enum Choice {
    /// Those of every kind.
    Any,
    /// Those of every kind, none of which waits.
    AtOnce,
    /// Those on an object of whatever kind, interrupts and setcreds: none waits.
    Control,
}

/// A client's next call, mostly on one of the objects that there are.
pub fn any_call(
    alloc: Global,
    numbers: &mut Numbers,
    objects: &[(Row, Vec<u16>)],
    choice: Choice,
) -> Result<Call, Memory> {
    if numbers.once_in(30) {
        return credentials(alloc, numbers);
    }
    let kind = any_kind(numbers);
    let id = any_id(numbers, objects, kind);
    if choice == Choice::Control || numbers.once_in(10) {
        return Ok(control(numbers, kind, id));
    }
    match kind {
        Kind::Queue => queue_call(alloc, numbers, id, choice),
        Kind::Sems => set_call(alloc, numbers, id, choice),
        Kind::Segment => segment_call(alloc, numbers, id),
    }
}

fn any_kind(numbers: &mut Numbers) -> Kind {
    match numbers.below(3) {
        0 => Kind::Queue,
        1 => Kind::Sems,
        _ => Kind::Segment,
    }
}

/// The identifier of an object of the kind among these, where a few tries find one.
fn any_id(numbers: &mut Numbers, objects: &[(Row, Vec<u16>)], kind: Kind) -> u32 {
    let count = u32::try_from(objects.len()).unwrap_or(u32::MAX);
    for _ in 0..8 {
        let at = numbers.below(count) as usize;
        if let Some(id) = objects.get(at).and_then(|object| id_of(&object.0, kind)) {
            return id;
        }
    }
    numbers.below(4)
}

/// The identifier of an object of the kind.
fn id_of(row: &Row, kind: Kind) -> Option<u32> {
    match (kind, row) {
        (Kind::Queue, Row::Queue { object, .. }) => Some(object.id),
        (Kind::Sems, Row::Set { object, .. }) => Some(object.id),
        (Kind::Segment, Row::Segment { object, .. }) => Some(object.id),
        _ => None,
    }
}

/// The mode of an object, the more rights the more often.
fn any_mode(numbers: &mut Numbers) -> u32 {
    match numbers.below(8) {
        0 => 0o600,
        1 => 0o640,
        2 => 0o444,
        _ => 0o666,
    }
}

/// A flag in one of so many cases, else 0.
fn once_in(cases: u32, numbers: &mut Numbers, flag: u32) -> u32 {
    if numbers.once_in(cases) { flag } else { 0 }
}

/// IPC_NOWAIT in one of eight cases, and in each where no call waits.
fn no_wait(numbers: &mut Numbers, choice: Choice) -> u32 {
    match choice {
        Choice::Any => once_in(8, numbers, IPC_NOWAIT),
        Choice::AtOnce | Choice::Control => IPC_NOWAIT,
    }
}

/// Up to four bytes.
fn any_bytes(alloc: Global, numbers: &mut Numbers) -> Result<Items<u8>, Memory> {
    let mut bytes = Vec::new(alloc);
    for _ in 0..numbers.below(5) {
        bytes.push(numbers.below(256) as u8)?;
    }
    Ok(Items::new(bytes))
}

fn queue_call(
    alloc: Global,
    numbers: &mut Numbers,
    id: u32,
    choice: Choice,
) -> Result<Call, Memory> {
    Ok(match numbers.below(10) {
        0 => Call::MsgGet {
            key: numbers.below(4),
            flags: any_mode(numbers) | IPC_CREAT,
        },
        1..5 => Call::MsgSnd {
            id,
            mtype: i64::from(numbers.below(4)),
            text: any_bytes(alloc, numbers)?,
            flags: no_wait(numbers, choice),
        },
        _ => Call::MsgRcv {
            id,
            size: u64::from(numbers.below(5)),
            msgtyp: i64::from(numbers.below(7)) - 3,
            flags: no_wait(numbers, choice)
                | once_in(2, numbers, MSG_NOERROR)
                | once_in(2, numbers, MSG_EXCEPT),
        },
    })
}

/// The flags of an operation, mostly none where it may wait.
fn operation_flags(numbers: &mut Numbers, choice: Choice) -> u16 {
    let flag = match numbers.below(8) {
        0 => IPC_NOWAIT as u16,
        1..4 => SEM_UNDO as u16,
        _ => 0,
    };
    match choice {
        Choice::Any => flag,
        Choice::AtOnce | Choice::Control => flag | IPC_NOWAIT as u16,
    }
}

/// One operation or two, seldom none.
fn any_operations(
    alloc: Global,
    numbers: &mut Numbers,
    choice: Choice,
) -> Result<Items<SemOper>, Memory> {
    let mut ops = Vec::new(alloc);
    for _ in 0..numbers.below(9).min(2) {
        ops.push(SemOper {
            num: numbers.below(2) as u16,
            op: numbers.below(6) as i16 - 3,
            flags: operation_flags(numbers, choice),
        })?;
    }
    Ok(Items::new(ops))
}

fn set_call(alloc: Global, numbers: &mut Numbers, id: u32, choice: Choice) -> Result<Call, Memory> {
    let num = numbers.below(3);
    Ok(match numbers.below(16) {
        0 => Call::SemGet {
            key: numbers.below(4),
            nsems: numbers.below(3).saturating_add(1),
            flags: any_mode(numbers) | IPC_CREAT,
        },
        1 => Call::GetVal { id, num },
        2 => Call::GetPid { id, num },
        3 => Call::GetNcnt { id, num },
        4 => Call::GetZcnt { id, num },
        5 => Call::GetAll { id },
        6 => Call::SetVal {
            id,
            num,
            value: numbers.below(5) as i32 - 1,
        },
        7 => Call::SetAll {
            id,
            values: Items::new(Vec::from_elem(alloc, 1, num as usize)?),
        },
        8..11 => Call::SemTimedOp {
            id,
            ops: any_operations(alloc, numbers, choice)?,
            timeout: u64::from(numbers.below(40)),
        },
        _ => Call::SemOp {
            id,
            ops: any_operations(alloc, numbers, choice)?,
        },
    })
}

fn segment_call(alloc: Global, numbers: &mut Numbers, id: u32) -> Result<Call, Memory> {
    let att = numbers.below(2);
    let offset = u64::from(numbers.below(3));
    Ok(match numbers.below(6) {
        0 => Call::ShmGet {
            key: numbers.below(4),
            size: u64::from(numbers.below(9)),
            flags: any_mode(numbers) | IPC_CREAT,
        },
        1 => Call::ShmAt {
            id,
            flags: once_in(2, numbers, SHM_RDONLY),
        },
        2 => Call::ShmDt { att },
        3 => Call::ShmRead {
            att,
            offset,
            len: u64::from(numbers.below(5)),
        },
        _ => Call::ShmWrite {
            att,
            offset,
            bytes: any_bytes(alloc, numbers)?,
        },
    })
}

/// A user and a group that the client may become or not, and seldom supplementary groups, at times too many.
fn credentials(alloc: Global, numbers: &mut Numbers) -> Result<Call, Memory> {
    let groups = if numbers.once_in(4) {
        Some(any_groups(alloc, numbers)?)
    } else {
        None
    };
    Ok(Call::SetCreds {
        euid: numbers.below(4) * 100,
        egid: if numbers.once_in(3) { 30 } else { 10 },
        groups,
    })
}

fn any_groups(alloc: Global, numbers: &mut Numbers) -> Result<Items<u32>, Memory> {
    let count = if numbers.once_in(4) {
        33
    } else {
        numbers.below(3)
    };
    let mut groups = Vec::new(alloc);
    for _ in 0..count {
        groups.push(numbers.below(4) * 10)?;
    }
    Ok(Items::new(groups))
}

fn control(numbers: &mut Numbers, kind: Kind, id: u32) -> Call {
    match numbers.below(12) {
        0 => Call::IpcRmid { kind, id },
        1..4 => Call::IpcStat { kind, id },
        4..6 => Call::IpcSet {
            kind,
            id,
            uid: numbers.below(3) * 100,
            gid: 10,
            mode: any_mode(numbers),
            qbytes: None,
        },
        6..8 => Call::Listing { kind },
        _ => Call::Interrupt {
            pid: numbers.below(9),
        },
    }
}

/// A call on processes and threads, of eight clients and twenty numbers. One whose thread has ended mostly begins anew.
pub fn any_process_call(
    alloc: Global,
    numbers: &mut Numbers,
    has_ended: bool,
) -> Result<Call, Memory> {
    let (client, pid) = (numbers.below(8), numbers.below(20));
    if has_ended && !numbers.once_in(4) {
        let creds = any_identity(alloc, numbers)?;
        return Ok(Call::Begin { pid, creds });
    }
    Ok(match numbers.below(14) {
        0..3 => Call::Fork { child: client, pid },
        3..6 => Call::Clone { child: client },
        6 => Call::Exec,
        7 => Call::Kill { pid },
        8 => Call::InterruptThread { client },
        9 => Call::Name { pid },
        10 => Call::Assume {
            creds: any_identity(alloc, numbers)?,
        },
        11 => Call::Begin {
            pid,
            creds: any_identity(alloc, numbers)?,
        },
        _ => Call::Exit,
    })
}

/// Credentials: few users and groups, at times all capabilities, at times too many groups.
fn any_identity(alloc: Global, numbers: &mut Numbers) -> Result<Boxed<Identity>, Memory> {
    let (user, group) = (numbers.below(4) * 100, numbers.below(4) * 10);
    let identity = Identity {
        euid: user,
        egid: group,
        groups: any_groups(alloc, numbers)?,
        caps: if numbers.once_in(4) { 31 } else { 0 },
        ruid: user,
        suid: numbers.below(4) * 100,
        rgid: group,
        sgid: group,
    };
    Boxed::new(alloc, identity)
}
