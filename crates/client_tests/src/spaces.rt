// A namespace of as many clients as there may be, and calls whose outcome is known.

use ipc_call::{Call, Limits};
use ipc_space::{Effects, Space};
use std::alloc::Global;
use std::process::Abort;
use std::test::Fail;
use test_support::calls::is_granted;
use test_support::clients::users;

/// A namespace of so many clients, 1 to 4,096.
fn space_of(alloc: Global, count: u32) -> Result<Space, Fail> {
    if count == 0 || count > 4_096 {
        return Err(Fail::from("there may not be so many clients"));
    }
    let clients = users(alloc, count as usize)?;
    Ok(Space::start(Limits::default(), clients)?)
}

/// A namespace of as many clients as there may be.
pub(crate) fn space_of_all(alloc: Global) -> Result<Space, Fail> {
    space_of(alloc, 4_096)
}

/// What a call of a client tells.
fn effects_of(
    rt: &impl Abort,
    space: &mut Space,
    client: u32,
    call: Call,
) -> Result<Effects, Fail> {
    assert!(rt; client < space.clients());
    assert!(rt; !space.is_waiting(client));
    let effects = space.apply(client, 0, call)?;
    Ok(effects)
}

/// Whether the event's own call was granted, None where it waits.
fn told_in(effects: &Effects) -> Option<bool> {
    match &effects.own {
        None => None,
        Some(_) => Some(is_granted(&effects.own)),
    }
}

/// What becomes of a call: whether it is granted, None where it waits.
fn ask(rt: &impl Abort, space: &mut Space, client: u32, call: Call) -> Result<Option<bool>, Fail> {
    let effects = effects_of(rt, space, client, call)?;
    let told = told_in(&effects);
    drop(effects);
    Ok(told)
}

/// Makes a call that is granted.
pub(crate) fn done(
    rt: &impl Abort,
    space: &mut Space,
    client: u32,
    call: Call,
) -> Result<(), Fail> {
    let told = ask(rt, space, client, call)?;
    assert_eq!(rt; told, Some(true), "client {client}");
    Ok(())
}

/// Makes a call that waits.
pub(crate) fn waits(
    rt: &impl Abort,
    space: &mut Space,
    client: u32,
    call: Call,
) -> Result<(), Fail> {
    let told = ask(rt, space, client, call)?;
    assert_eq!(rt; told, None, "client {client}");
    Ok(())
}

/// Makes the first client's process the only one.
pub(crate) fn end_all_others(rt: &impl Abort, space: &mut Space) -> Result<(), Fail> {
    for client in 1..space.clients() {
        done(rt, space, client, Call::Exit)?;
    }
    Ok(())
}
