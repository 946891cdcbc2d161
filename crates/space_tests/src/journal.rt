// A journal that grows.

use ipc_call::{Call, JournalRow};
use ipc_journal::Journal;
use std::process::Abort;
use std::test::Fail;
use test_support::journal::called;

/// The row of an exit.
fn exit_of(client: u32) -> JournalRow {
    called(client, 0, Call::Exit)
}

/// The rows are the calls of these clients.
fn check_entries(rt: &impl Abort, journal: &Journal, clients: &[u32]) {
    assert_eq!(rt; journal.entries().len(), clients.len());
    for (entry, client) in journal.entries().iter().zip(clients) {
        assert!(rt; *entry == exit_of(*client));
    }
}

#[test]
fn rows_stand_in_the_order_in_which_they_came(rt: HostRuntime) -> Result<(), Fail> {
    let mut journal = Journal::new(rt.alloc());
    check_entries(&rt, &journal, &[]);
    journal.reserve(2)?;
    journal.enter(exit_of(3));
    journal.enter(exit_of(1));
    check_entries(&rt, &journal, &[3, 1]);
    Ok(())
}
