//! The table.

use crate::cells::{by_sys_admin, deciding, is_overridden, print_cells};
use crate::rights::{Client, Rights, all_rights};
use ipc_call::{Kind, Perm};
use ipc_live::{Object, print_object};
use perm_words::print_class;
use std::alloc::{AllocError, Global};

/// How wide the names are: the longest one has 16 bytes.
const NAMES: usize = 17;

/// Appends the table of an object: its line, what the columns mean, and a row for each client. The error comes only where an
/// allocation fails, and a part of the text may then stand in `out`.
pub fn print_rights(
    alloc: Global,
    out: &mut String,
    object: &Object,
    clients: &[Client],
) -> Result<(), AllocError> {
    print_object(out, object)?;
    out.push_str(meaning(object.kind()))?;
    out.push_str("client           class          r    w    control  why\n")?;
    let rights = all_rights(alloc, object, clients)?;
    for (client, rights) in clients.iter().zip(rights.as_slice()) {
        print_row(out, &object.perm, client, *rights)?;
    }
    Ok(())
}

/// What the columns of a kind mean.
fn meaning(kind: Kind) -> &'static str {
    match kind {
        Kind::Queue =>
            "r receive (msgrcv, IPC_STAT); w send (msgsnd); control IPC_SET and IPC_RMID\n",
        Kind::Sems => {
            "r read (GETVAL and its kin, a semop that waits for 0, IPC_STAT); w alter (SETVAL, SETALL, any other semop); control IPC_SET and IPC_RMID\n"
        }
        Kind::Segment => {
            "r attach to read (SHM_RDONLY), IPC_STAT; w attach to write, which asks for both bits; control IPC_SET and IPC_RMID\n"
        }
    }
}

fn print_row(
    out: &mut String,
    perm: &Perm,
    client: &Client,
    rights: Rights,
) -> Result<(), AllocError> {
    out.push_str(client.name.as_str())?;
    for _ in client.name.len()..NAMES {
        out.push_str(" ")?;
    }
    out.push_str(deciding(rights.standing, rights.told))?;
    print_cells(out, rights.told)?;
    print_class(out, &client.creds, perm)?;
    out.push_str(if is_overridden(rights.told) {
        "; CAP_IPC_OWNER overrides the bits"
    } else {
        ""
    })?;
    out.push_str(if by_sys_admin(rights.told.control) {
        "; CAP_SYS_ADMIN allows control"
    } else {
        ""
    })?;
    out.push_str(if client.has_exited {
        "; it has called exit, and makes no more calls\n"
    } else {
        "\n"
    })
}
