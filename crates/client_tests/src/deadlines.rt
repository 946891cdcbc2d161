// All clients but the first wait for a time, and the soonest deadline is known.

use crate::spaces::{done, space_of_all, waits};
use ipc_call::{Call, Items, Memory, SemOper};
use ipc_space::Space;
use std::alloc::Global;
use std::process::Abort;
use std::test::Fail;

/// To take 1 from the first semaphore of the first set, and to wait so many seconds for that.
fn take_within(alloc: Global, timeout: u64) -> Result<Call, Memory> {
    let down = SemOper {
        num: 0,
        op: -1,
        flags: 0,
    };
    let ops = Items::new(vec![in alloc; down]?);
    Ok(Call::SemTimedOp {
        id: 0,
        ops,
        timeout,
    })
}

/// The client waits so many seconds, and its deadline is the soonest.
fn wait_soonest(
    rt: &impl Abort,
    alloc: Global,
    space: &mut Space,
    client: u32,
    timeout: u64,
) -> Result<(), Fail> {
    waits(rt, space, client, take_within(alloc, timeout)?)?;
    assert_eq!(rt; space.soonest_deadline(), Some(timeout), "client {client}");
    Ok(())
}

/// Each client but the first waits, the later ones for less long.
fn all_others_wait(rt: &impl Abort, alloc: Global, space: &mut Space) -> Result<(), Fail> {
    let clients = space.clients();
    for client in 1..clients {
        let timeout = u64::from(clients.wrapping_sub(client));
        wait_soonest(rt, alloc, space, client, timeout)?;
    }
    Ok(())
}

/// The first client makes a set of one semaphore.
fn make_set(rt: &impl Abort, space: &mut Space) -> Result<(), Fail> {
    let (key, nsems, flags) = (0, 1, 0o600);
    done(rt, space, 0, Call::SemGet { key, nsems, flags })
}

/// All others wait, and the one with the soonest deadline is interrupted.
fn wait_and_interrupt(rt: &impl Abort, alloc: Global, space: &mut Space) -> Result<(), Fail> {
    make_set(rt, space)?;
    assert_eq!(rt; space.soonest_deadline(), None);
    all_others_wait(rt, alloc, space)?;
    done(rt, space, 0, Call::InterruptThread { client: 4_095 })?;
    assert_eq!(rt; space.soonest_deadline(), Some(2));
    Ok(())
}

#[test]
fn the_soonest_deadline_is_known_while_all_wait(rt: HostRuntime) -> Result<(), Fail> {
    let mut space = space_of_all(rt.alloc())?;
    let waited = wait_and_interrupt(&rt, rt.alloc(), &mut space);
    drop(space);
    waited
}
