// Clients join and walk, alone and in 64 threads.
ghost use Rattle.std.specs.Prelude.{◌≤◌};
ghost use Rattle.pub_list.specs.Clients.{BelongsTo, IsFreshOf};

use pub_counter::Counter;
use pub_list::{Fresh, Joined, List};
use std::process::Abort;
use std::test::Fail;
use std::thread;

const ALL: usize = 64;

/// The clients that a walk meets, and how many they are.
fn met_by(mut joined: Joined<Counter>, list: &List<Counter>) -> ([u32; ALL], usize)
    requires { BelongsTo list.now joined }
    ensures { result.1 ≤ 64 }
{
    let mut met = [0; ALL];
    let mut at = joined.first(list);
    for count in 0..ALL {
        let Some(client) = at else {
            return (met, count);
        };
        met[count] = client;
        at = joined.next(list, client);
    }
    (met, ALL)
}

/// The clients as bits, each of which was there once.
fn bits_of(rt: &impl Abort, met: &[u32]) -> u64 {
    let mut bits: u64 = 0;
    for client in met {
        assert!(rt; *client < 64);
        let bit = 1u64 << *client;
        assert!(rt; bits & bit == 0, "client {client} was met twice");
        bits |= bit;
    }
    bits
}

#[test]
fn a_client_alone_joins_and_walks(rt: HostRuntime) -> Result<(), Fail> {
    let counter = Counter::new(rt.alloc());
    assert_eq!(rt; counter.turns().len(), 0);
    let (list, mut clients) = List::new(rt.alloc(), 1, counter)?;
    assert_eq!(rt; list.clients(), 1);
    let fresh = clients.pop().expect(&rt, "a client");
    assert_eq!(rt; fresh.client(), 0);
    let mut joined = fresh.join(&list);
    assert_eq!(rt; joined.client(), 0);
    assert_eq!(rt; joined.first(&list), Some(0));
    assert_eq!(rt; joined.next(&list, 0), None);
    let (met, count) = met_by(joined, &list);
    assert_eq!(rt; count, 1);
    assert_eq!(rt; met[0], 0);
    Ok(())
}

#[test]
fn a_client_learns_of_one_that_joined_later(rt: HostRuntime) -> Result<(), Fail> {
    let (list, mut clients) = List::new(rt.alloc(), 2, Counter::new(rt.alloc()))?;
    let later = clients.pop().expect(&rt, "a client");
    let sooner = clients.pop().expect(&rt, "a client");
    let mut sooner = sooner.join(&list);
    let mut later = later.join(&list);
    sooner.learn(&list, &mut later);
    assert_eq!(rt; later.client(), 1);
    assert_eq!(rt; sooner.next(&list, 1), Some(0));
    Ok(())
}

#[test]
fn the_walks_of_sixty_four_threads_meet_each_client(rt: HostRuntime) -> Result<(), Fail> {
    let (list, clients) = List::new(rt.alloc(), 64, Counter::new(rt.alloc()))?;
    let shared = &list;
    let joined = thread::map_vec(
        &rt,
        clients,
        &|fresh: Fresh<Counter>| -> Joined<Counter>
            requires { IsFreshOf shared.now fresh }
            ensures { BelongsTo shared.entry.now result }
        { fresh.join(shared) },
    )?;
    let walks = thread::map_vec(
        &rt,
        joined,
        &|joined: Joined<Counter>| -> ([u32; ALL], usize)
            requires { BelongsTo shared.now joined }
        { met_by(joined, shared) },
    )?;
    assert_eq!(rt; walks.len(), ALL);
    for (met, count) in &walks {
        assert_eq!(rt; *count, ALL);
        assert_eq!(rt; bits_of(&rt, met), u64::MAX);
    }
    Ok(())
}
