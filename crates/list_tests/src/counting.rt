// Clients post, combine and collect, alone and in threads.
ghost use Rattle.std.specs.Prelude.{◌≡◌, ◌≤◌, false, All};
ghost use Rattle.pub_list.specs.Clients.{view, work, BelongsTo, IsFreshOf};
ghost use Rattle.pub_counter.specs.Service.{IsResting};

use pub_counter::service::{ask, reply_of};
use pub_counter::{Counter, Turn};
use pub_list::{Fresh, Joined, List, OpenGate};
use std::alloc::{AllocError, Global};
use std::process::Abort;
use std::test::Fail;
use std::thread;
use std::thread::Threads;
use test_support::waiting::TURNS;

const ROUNDS: usize = 1000;

/// What a client got: its replies, and how many they are.
#[derive(Drop)]
struct Told {
    joined: Joined<Counter>,
    replies: [u64; ROUNDS],
    count: usize,
    state: Option<Counter>,
}

/// Two clients post, and the first serves both.
fn ask_both(list: &List<Counter>, first: &mut Joined<Counter>, second: &mut Joined<Counter>) -> bool
    requires list { BelongsTo list.now first.old × BelongsTo list.now second.old }
    requires idle { IsResting first.old.client (view first.old) × IsResting second.old.client (view second.old) }
    ensures list { BelongsTo list.now first.new × BelongsTo list.now second.new }
    ensures unheld { ((work first.new).holds ≡ false) × ((work second.new).holds ≡ false) }
{
    first.post(list, 5);
    second.post(list, 7);
    first.combine_with(list, &OpenGate).is_ok()
}

#[test]
fn one_client_serves_two(rt: HostRuntime) -> Result<(), Fail> {
    let (list, mut clients) = List::new(rt.alloc(), 2, Counter::new(rt.alloc()))?;
    let mut second = clients.pop().expect(&rt, "a client").join(&list);
    let mut first = clients.pop().expect(&rt, "a client").join(&list);
    assert!(rt; ask_both(&list, &mut first, &mut second));
    assert_eq!(rt; reply_of(&mut first, &list), Some(5));
    assert_eq!(rt; reply_of(&mut second, &list), Some(12));
    Ok(())
}

/// A thousand calls of one client.
fn ask_all(mut joined: Joined<Counter>, list: &List<Counter>) -> Told
    requires list { BelongsTo list.now joined }
    requires idle { IsResting joined.client (view joined) }
    ensures list { BelongsTo list.now result.joined }
    ensures unheld { (work result.joined).holds ≡ false }
{
    let mut replies = [0; ROUNDS];
    let mut turns = TURNS;
    let mut count = 0;
    for round in 0..ROUNDS {
        match ask(&mut joined, list, 1, &mut turns) {
            Some(sum) => replies[round] = sum,
            None => break,
        }
        count = round + 1;
    }
    Told {
        joined,
        replies,
        count,
        state: None,
    }
}

/// The first client takes the counter out of the list.
fn with_state(told: Told, list: &List<Counter>) -> Told
    requires list { BelongsTo list.now told.joined }
    requires unheld { (work told.joined).holds ≡ false }
{
    let Told {
        mut joined,
        replies,
        count,
        state: _,
    } = told;
    let mut state = None;
    if joined.client() == 0 {
        state = joined.seize(list).ok();
    }
    Told {
        joined,
        replies,
        count,
        state,
    }
}

/// Each client gets its thousand replies in a thread of its own.
fn asked<R: Threads + Sync>(
    rt: &R,
    list: &List<Counter>,
    clients: Vec<Fresh<Counter>>,
) -> Result<Vec<Told>, AllocError>
    requires { All (λ f. IsFreshOf list.now f) clients.items }
{
    let told = thread::map_vec(
        rt,
        clients,
        &|fresh: Fresh<Counter>| -> Told
            requires { IsFreshOf list.now fresh }
            ensures { BelongsTo list.entry.now result.joined × ((work result.joined).holds ≡ false) }
        { ask_all(fresh.join(list), list) },
    )?;
    thread::map_vec(
        rt,
        told,
        &|told: Told| -> Told
            requires { (BelongsTo list.now told.joined) × ((work told.joined).holds ≡ false) }
        { with_state(told, list) },
    )
}

/// The replies are those of the history: at each of its turns a client is told the sum of all amounts so far.
fn check_replies(rt: &impl Abort, turns: &[Turn], told: &[Told]) {
    let mut seen = [0usize; 64];
    let mut sum: u64 = 0;
    for turn in turns {
        assert_eq!(rt; turn.amount, 1);
        sum = sum.wrapping_add(turn.amount);
        assert!(rt; turn.client < 64 && turn.client < told.len() as u64);
        let client = turn.client as usize;
        let place = seen[client];
        assert!(rt; place < ROUNDS);
        assert_eq!(rt; told[client].replies[place], sum);
        seen[client] = place + 1;
    }
    assert_eq!(rt; sum, turns.len() as u64);
}

/// So many clients each post a thousand times.
fn run<R: Threads + Sync + Abort>(rt: &R, alloc: Global, clients: u32) -> Result<(), Fail>
    requires { (1 ≤ clients) × (clients ≤ 64) }
{
    let (list, fresh) = List::new(alloc, clients, Counter::new(alloc))?;
    let told = asked(rt, &list, fresh)?;
    assert!(rt; told.len() == clients as usize && told.len() > 0);
    for each in &told {
        assert_eq!(rt; each.count, ROUNDS);
    }
    let Some(state) = &told[0].state else {
        panic!(rt; "nobody combines");
    };
    assert_eq!(rt; state.turns().len(), told.len() * ROUNDS);
    check_replies(rt, state.turns(), &told);
    Ok(())
}

#[test]
fn a_thousand_posts_each_by_two_threads(rt: HostRuntime) -> Result<(), Fail> {
    run(&rt, rt.alloc(), 2)
}

#[test]
fn a_thousand_posts_each_by_eight_threads(rt: HostRuntime) -> Result<(), Fail> {
    run(&rt, rt.alloc(), 8)
}

#[test]
fn a_thousand_posts_each_by_sixty_four_threads(rt: HostRuntime) -> Result<(), Fail> {
    run(&rt, rt.alloc(), 64)
}
