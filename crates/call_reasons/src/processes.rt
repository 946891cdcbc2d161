//! What refuses calls on processes.

use crate::cases::{Case, Told};
use ipc_call::Call;
use ipc_creds::Creds;
use number_text::print_number;
use std::fmt::Write;

/// The first thread that the call means and that has another effective user than the caller, with the number of its process.
fn other_thread(case: Case<'_>, own: u32) -> Option<(u32, u32)> {
    for client in 0..case.space.clients() {
        let Some(pid) = case.space.pid_of(client) else {
            continue;
        };
        let user = case.space.creds_of(client).map_or(own, Creds::euid);
        if user != own && is_meant(case.call, client, pid) {
            return Some((client, pid));
        }
    }
    None
}

/// The number of the process whose first thread is that of a client.
fn led_by(case: Case<'_>, client: u32) -> Option<u32> {
    let pid = case.space.pid_of(client)?;
    if (0..client).any(|earlier| case.space.pid_of(earlier) == Some(pid)) {
        return None;
    }
    Some(pid)
}

/// Whether an interrupt or a kill means the thread of a client, of this process.
fn is_meant(call: &Call, client: u32, pid: u32) -> bool {
    match call {
        Call::Interrupt { pid: target } | Call::Kill { pid: target } => *target == pid,
        Call::InterruptThread { client: target } => *target == client,
        _ => false,
    }
}

/// Tells whose the process is.
pub(crate) fn explain_other_user(out: &mut String, case: Case<'_>) -> Told {
    let Some(own) = case.space.creds_of(case.client).map(Creds::euid) else {
        return Ok(());
    };
    let Some((client, pid)) = other_thread(case, own) else {
        return Ok(());
    };
    let user = case.space.creds_of(client).map_or(0, Creds::euid);
    write!(
        out,
        "process {pid} has a thread with the effective user {user}, the caller has {own}; CAP_SYS_ADMIN allows it to any caller\n"
    )
}

/// Tells that there is no such process.
pub(crate) fn explain_no_process(out: &mut String, case: Case<'_>) -> Told {
    let (Call::Interrupt { pid } | Call::Kill { pid }) = case.call else {
        return out.push_str("its thread has ended\n");
    };
    write!(out, "there is no process {pid} now; there are ")?;
    let mut between = "";
    for client in 0..case.space.clients() {
        let Some(pid) = led_by(case, client) else {
            continue;
        };
        out.push_str(between)?;
        print_number(out, u64::from(pid))?;
        between = ", ";
    }
    out.push_str("\n")
}

/// Tells of which process the client is a thread that is to be taken.
pub(crate) fn explain_in_use(out: &mut String, case: Case<'_>) -> Told {
    let (client, whose) = match case.call {
        Call::Fork { child, .. } | Call::Clone { child } => (*child, "that client's"),
        _ => (case.client, "the caller's"),
    };
    let Some(pid) = case.space.pid_of(client) else {
        return Ok(());
    };
    write!(
        out,
        "{whose} thread hasn't ended: it is one of process {pid}\n"
    )
}

/// Tells who has the number.
pub(crate) fn explain_pid_in_use(out: &mut String, case: Case<'_>) -> Told {
    let (Call::Begin { pid, .. } | Call::Fork { pid, .. } | Call::Name { pid }) = case.call else {
        return Ok(());
    };
    let count = (0..case.space.clients())
        .filter(|client| case.space.pid_of(*client) == Some(*pid))
        .count();
    write!(
        out,
        "there is a process {pid}; threads that it has: {count}\n"
    )
}

/// Tells which users or groups the caller may take on.
pub(crate) fn explain_own_user(out: &mut String, case: Case<'_>) -> Told {
    let (Call::SetCreds { euid, .. }, Some(creds)) = (case.call, case.space.creds_of(case.client))
    else {
        return Ok(());
    };
    let (own, (real, _), (saved, _)) = (creds.euid(), creds.real(), creds.saved());
    write!(
        out,
        "user {euid} is neither the effective {own} nor the real {real} nor the saved {saved}; CAP_SETUID allows any\n"
    )
}

/// Tells which groups the caller may take on.
pub(crate) fn explain_own_group(out: &mut String, case: Case<'_>) -> Told {
    let (Call::SetCreds { egid, .. }, Some(creds)) = (case.call, case.space.creds_of(case.client))
    else {
        return Ok(());
    };
    let (own, (_, real), (_, saved)) = (creds.egid(), creds.real(), creds.saved());
    write!(
        out,
        "group {egid} is neither the effective {own} nor the real {real} nor the saved {saved}; CAP_SETGID allows any\n"
    )
}

/// Tells what refuses the supplementary groups.
pub(crate) fn explain_groups(out: &mut String, case: Case<'_>) -> Told {
    match case.call {
        Call::SetCreds {
            groups: Some(groups),
            ..
        } => {
            let count = groups.len();
            write!(
                out,
                "{count} supplementary groups are given; at most 32 may be, and they ask for CAP_SETGID\n"
            )
        }
        Call::Begin { creds, .. } | Call::Assume { creds } => {
            let count = creds.get().groups.len();
            write!(
                out,
                "{count} supplementary groups are given; at most 32 may be\n"
            )
        }
        _ => Ok(()),
    }
}
