// A client that begins and exits in turn, in a namespace that keeps nothing of its journal.

use crate::spaces::{prepare, space_of};
use ipc_call::{Boxed, Call, Identity, Items};
use ipc_space::{Effects, Ledger};
use std::alloc::{AllocError, Global};
use std::io;
use test_support::calls::is_granted;
use test_support::measuring::unanswered;

/// Client 1, which has ended.
const CLIENT: u32 = 1;

/// The pid that it begins under.
const PID: u32 = 10_000;

/// The user 100 with its group, 10.
fn identity(alloc: Global) -> Identity {
    Identity {
        euid: 100,
        egid: 10,
        groups: Items::new(Vec::new(alloc)),
        caps: 0,
        ruid: 100,
        suid: 100,
        rgid: 10,
        sgid: 10,
    }
}

/// What a call of the client tells. It is as where memory fails where there is no such client or it waits.
fn effects(ledger: &mut Ledger, call: Call) -> Result<Effects, AllocError> {
    if CLIENT >= ledger.clients() || ledger.namespace().is_waiting(CLIENT) {
        drop(call);
        return Err(AllocError);
    }
    ledger.apply(CLIENT, 0, call)
}

/// The client makes a call that is granted, of which the journal keeps nothing.
fn granted(ledger: &mut Ledger, call: Call) -> io::Result<()> {
    let effects = effects(ledger, call)?;
    let is_granted = is_granted(&effects.own);
    drop(effects);
    ledger.forget_rows();
    if is_granted {
        Ok(())
    } else {
        Err(unanswered())
    }
}

/// The client begins.
fn begin(alloc: Global, ledger: &mut Ledger) -> io::Result<()> {
    let (pid, creds) = (PID, Boxed::new(alloc, identity(alloc))?);
    granted(ledger, Call::Begin { pid, creds })
}

/// The client begins and exits, so many times.
fn make_each(alloc: Global, ledger: &mut Ledger, turns: u32) -> io::Result<()> {
    for _ in 0..turns {
        begin(alloc, ledger)?;
        granted(ledger, Call::Exit)?;
    }
    Ok(())
}

/// A namespace of so many clients, all of which but the first end or wait.
fn ledger_of(alloc: Global, clients: u32) -> io::Result<Ledger> {
    let mut space = space_of(alloc, clients)?;
    let prepared = prepare(&mut space);
    let ledger = space.into_ledger();
    match prepared {
        Ok(()) => Ok(ledger),
        Err(error) => {
            drop(ledger);
            Err(error)
        }
    }
}

/// In a namespace of so many clients one begins and exits so many times.
pub(crate) fn make(alloc: Global, turns: u32, clients: u32) -> io::Result<()> {
    let mut ledger = ledger_of(alloc, clients)?;
    let made = make_each(alloc, &mut ledger, turns);
    drop(ledger);
    made
}
