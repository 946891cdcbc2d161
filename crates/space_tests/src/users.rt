// Clients that change their users: the journal is replayed from the credentials at the start.

use ipc_call::{Call, Items, Limits, SHM_RDONLY};
use ipc_creds::{Caps, Creds, copies};
use ipc_space::{Replayed, Space, replay};
use std::alloc::Global;
use std::process::Abort;
use std::test::Fail;
use test_support::calls::text;
use test_support::clients::user;

const ALICE: u32 = 0;

const EVE: u32 = 1;

const BOB: u32 = 2;

const SUE: u32 = 3;

/// Alice, eve, whose saved user is alice's, bob, and sue, who may become any user.
fn users(alloc: Global, eve: u32) -> Result<Vec<Creds>, Fail> {
    let mut users = Vec::new(alloc);
    users.push(user(100, 10))?;
    users.push(user(eve, 30).with_saved(100, 30))?;
    users.push(user(200, 20))?;
    users.push(Creds::new(400, 40, &[], Caps::SETUID))?;
    Ok(users)
}

/// A client takes on a user and a group.
fn become_user(client: u32, euid: u32, egid: u32) -> (u32, Call) {
    let groups = None;
    (client, Call::SetCreds { euid, egid, groups })
}

/// Eve gives herself a supplementary group.
fn join_group(alloc: Global) -> Result<(u32, Call), Fail> {
    let call = Call::SetCreds {
        euid: 300,
        egid: 30,
        groups: Some(Items::new(vec![in alloc; 10]?)),
    };
    Ok((EVE, call))
}

/// Eve writes to what she has attached.
fn write(alloc: Global) -> Result<(u32, Call), Fail> {
    let call = Call::ShmWrite {
        att: 0,
        offset: 0,
        bytes: text(alloc)?,
    };
    Ok((EVE, call))
}

/// A client attaches the segment.
fn attach(client: u32, flags: u32) -> (u32, Call) {
    (client, Call::ShmAt { id: 0, flags })
}

/// The call of a number, from 0 to 13, with its client. Alice makes a segment. Eve attaches it as alice's user, and writes
/// to it as her own.
fn call_at(alloc: Global, nth: usize) -> Result<(u32, Call), Fail> {
    let get = Call::ShmGet {
        key: 5,
        size: 4,
        flags: 0o1600,
    };
    Ok(match nth {
        0 => (ALICE, get),
        1 | 3 => attach(EVE, 0),
        2 => become_user(EVE, 100, 30),
        4 => become_user(EVE, 300, 30),
        5 => write(alloc)?,
        6 => attach(EVE, SHM_RDONLY),
        7 => become_user(BOB, 100, 20),
        8 => become_user(EVE, 100, 31),
        9 => join_group(alloc)?,
        10 => become_user(SUE, 200, 40),
        12 => become_user(SUE, 400, 40),
        _ => (SUE, Call::Interrupt { pid: 3 }),
    })
}

/// Makes the first of the calls, so many.
fn make(rt: &(impl Abort + AllocGlobal), space: &mut Space, count: usize) -> Result<(), Fail> {
    for nth in 0..count {
        let (client, call) = call_at(rt.alloc(), nth)?;
        assert!(rt; client < space.clients());
        assert!(rt; !space.is_waiting(client));
        drop(space.apply(client, 0, call)?);
    }
    Ok(())
}

/// A namespace of these clients, eve being of this user, that has served so many of the calls.
fn served(rt: &(impl Abort + AllocGlobal), eve: u32, count: usize) -> Result<Space, Fail> {
    let clients = users(rt.alloc(), eve)?;
    assert_eq!(rt; clients.len(), 4);
    let mut space = Space::start(Limits::default(), clients)?;
    make(rt, &mut space, count)?;
    Ok(space)
}

/// How many rows of the journal begin that of a namespace with these credentials at the start. None where it is the same.
fn parted(rt: &impl Abort, space: &Space, clients: Vec<Creds>) -> Result<Option<u64>, Fail> {
    assert_eq!(rt; clients.len(), 4);
    let replayed = replay(Limits::default(), clients, space.journal())?;
    let count = match &replayed {
        Replayed::Same(_) => None,
        Replayed::Differs(count) => Some(*count),
    };
    drop(replayed);
    Ok(count)
}

#[test]
fn credentials_at_the_start_give_the_same(rt: HostRuntime) -> Result<(), Fail> {
    let space = served(&rt, 300, 14)?;
    let clients = copies(rt.alloc(), space.opening())?;
    let found = parted(&rt, &space, clients);
    drop(space);
    assert_eq!(rt; found?, None);
    Ok(())
}

/// Eve's first attempt to attach was denied, which as alice's user it would not have been.
#[test]
fn credentials_after_three_calls_give_another(rt: HostRuntime) -> Result<(), Fail> {
    let space = served(&rt, 300, 3)?;
    let clients = users(rt.alloc(), 100)?;
    let found = parted(&rt, &space, clients);
    drop(space);
    assert_eq!(rt; found?, Some(3));
    Ok(())
}
