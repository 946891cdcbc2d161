// Credentials that are copied, and that change.

use bitflags::Flags;
use ipc_creds::{Caps, Creds};
use test_support::clients::user;

fn caps() -> Caps {
    Caps::SYS_ADMIN.union(Caps::IPC_OWNER)
}

/// User 300 of group 30, with the groups 7 and 10 and two capabilities.
fn is_own(creds: &Creds) -> bool {
    let user = creds.euid() == 300 && creds.egid() == 30;
    let groups = creds.groups() == [10, 7, 10].as_slice();
    let in_groups = creds.in_group(7) && creds.in_group(30) && !creds.in_group(300);
    user && groups && in_groups && creds.caps() == caps()
}

#[test]
fn a_copy_equals_its_source(rt: HostRuntime) {
    let creds = Creds::new(300, 30, &[10, 7, 10], caps());
    let copied = creds.copy();
    assert!(rt; is_own(&creds) && is_own(&copied));
}

/// The user and the group are each one that the client may become.
fn are_own(creds: &Creds, uid: u32, gid: u32) -> bool {
    creds.is_own_user(uid) && creds.is_own_group(gid)
}

#[test]
fn a_client_takes_on_its_saved_user_and_back(rt: HostRuntime) {
    let mut creds = user(100, 10).with_saved(7, 8);
    creds.take_on(7, 8, None);
    assert!(rt; creds.euid() == 7 && creds.egid() == 8);
    assert!(rt; are_own(&creds, 100, 10) && are_own(&creds, 7, 8) && !creds.is_own_user(8));
    let copied = creds.copy();
    assert!(rt; are_own(&copied, 100, 8) && !copied.is_own_group(7));
}
