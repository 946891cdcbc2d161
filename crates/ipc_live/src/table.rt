//! What each process may do to each object.

ghost use Rattle.std.specs.Prelude.{◌≡◌, IfOk, map};
ghost use Rattle.ipc_live.specs.Told.{row_of, table_of, told_of, wanted_to_write};

use crate::objects::Object;
use crate::processes::Process;
use ipc_call::Kind;
use ipc_creds::Creds;
use ipc_perm::{TO_ALTER, TO_READ, Verdict, Want, decide, may_control};
use std::alloc::{AllocError, Global};
use std::marker::Model;

/// What one process may do to one object.
#[derive(Clone, Copy, Debug, PartialEq, Eq)]
pub struct Told {
    /// To read it: msgrcv, a semop that waits for 0, GETVAL and its kin, shmat with SHM_RDONLY, IPC_STAT.
    pub read: Verdict,
    /// To write it: msgsnd, a semop that changes a value, SETVAL and SETALL, shmat without SHM_RDONLY.
    pub write: Verdict,
    /// To set and to remove it: IPC_SET and IPC_RMID.
    pub control: Verdict,
}

/// A process, and what it may do to the object of its entry.
#[derive(Debug, Drop)]
pub struct Row<'a> {
    pub(crate) process: &'a Process,
    pub(crate) told: Told,
}

impl<'a> Model for Row<'a> {
    ghost use Rattle.ipc_live.specs.Told.{RowOf};

    ghost Value = { RowOf };

    ghost view = { λ r. record { process = r.process.now; told = r.told } };
}

/// An object, with a row for each process.
#[derive(Debug, Drop)]
pub struct Entry<'a> {
    pub(crate) object: &'a Object,
    pub(crate) rows: Vec<Row<'a>>,
}

impl<'a> Model for Entry<'a> {
    ghost use Rattle.ipc_live.specs.Told.{EntryOf};

    ghost Value = { EntryOf };

    ghost view = { λ e. record { object = e.object.now; rows = e.rows.items } };
}

/// What a caller of these credentials may do to the object.
pub fn tell(creds: &Creds, object: &Object) -> Told
    ensures { result ≡ told_of creds.now object.now }
{
    Told {
        read: decide(creds, &object.perm, TO_READ),
        write: decide(creds, &object.perm, to_write(object.kind())),
        control: may_control(creds, &object.perm),
    }
}

/// The right that a call needs which changes what an object of the kind holds. A segment that is attached to be written
/// is read through the same memory, so that asks for both (shmop(2)).
pub(crate) fn to_write(kind: Kind) -> Want
    ensures { result ≡ wanted_to_write kind }
{
    match kind {
        Kind::Queue | Kind::Sems => TO_ALTER,
        Kind::Segment => Want {
            read: true,
            alter: true,
        },
    }
}

/// The table: an entry for each object with a row for each process, both in the order in which they are given. The error
/// comes only where an allocation fails.
pub fn tabulate<'a>(
    alloc: Global,
    objects: &'a [Object],
    processes: &'a [Process],
) -> Result<Vec<Entry<'a>>, AllocError>
    ensures { IfOk result (λ entries. entries.items ≡ table_of objects.entry.now processes.entry.now) }
{
    let mut entries = Vec::new(alloc);
    for object in objects {
        entries.push(Entry {
            object,
            rows: rows_at(alloc, object, processes)?,
        })?;
    }
    Ok(entries)
}

/// A row of the object for each process.
fn rows_at<'a>(
    alloc: Global,
    object: &'a Object,
    processes: &'a [Process],
) -> Result<Vec<Row<'a>>, AllocError>
    ensures { IfOk result (λ rows. rows.items ≡ map (row_of object.entry.now) processes.entry.now) }
{
    let mut rows = Vec::new(alloc);
    for process in processes {
        rows.push(Row {
            process,
            told: tell(&process.creds, object),
        })?;
    }
    Ok(rows)
}
