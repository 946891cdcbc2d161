//! Measurements of a publication list that serves a counter.
ghost use Rattle.std.specs.Prelude.{◌≡◌, ◌≤◌, false, All, IfOk, IfSome};
ghost use Rattle.pub_list.specs.Clients.{view, BelongsTo, IsFreshOf};
ghost use Rattle.pub_counter.specs.Service.{IsResting};

use pub_counter::Counter;
use pub_counter::service::reply_of;
use pub_list::{Fresh, Joined, List, OpenGate, Serves, Took, WordState};
use std::io;
use std::time::Instant;
use test_support::measuring::{Run, unanswered};

/// How many steps a client alone takes to be served.
pub const STEPS: usize = 6;

/// So many clients join, and one of them is there.
fn joined_one(list: &List<Counter>, mut clients: Vec<Fresh<Counter>>) -> Option<Joined<Counter>>
    requires { All (λ f. IsFreshOf list.now f) clients.items }
    ensures list { IfSome result (λ j. BelongsTo list.now j) }
    ensures idle { IfSome result (λ j. IsResting j.client (view j)) }
{
    let first = clients.pop()?.join(list);
    for fresh in clients {
        fresh.join(list);
    }
    Some(first)
}

/// One call of a client that posts, combines, serves its own record alone, and collects, with the moment before
/// each step and after the last.
fn steps(
    rt: &HostRuntime,
    joined: &mut Joined<Counter>,
    list: &List<Counter>,
) -> io::Result<[Instant; 7]>
    requires list { BelongsTo list.now joined.old }
    requires idle { IsResting joined.old.client (view joined.old) }
    ensures list { BelongsTo list.now joined.new }
    ensures idle { IfOk result (λ _. IsResting joined.new.client (view joined.new)) }
{
    let own = joined.client();
    let start = Instant::now(rt)?;
    joined.post(list, 1);
    let posted = Instant::now(rt)?;
    let Ok(state) = joined.seize(list) else {
        return Err(unanswered());
    };
    let seized = Instant::now(rt)?;
    let Took::FromPosted(amount) = joined.take(list, own, WordState::Posted) else {
        return Err(unanswered());
    };
    let taken = Instant::now(rt)?;
    let state = Counter::serve(joined, list, own, amount, state);
    let answered = Instant::now(rt)?;
    joined.release(list, state);
    let released = Instant::now(rt)?;
    match reply_of(joined, list) {
        Some(_) => Ok([
            start,
            posted,
            seized,
            taken,
            answered,
            released,
            Instant::now(rt)?,
        ]),
        None => Err(unanswered()),
    }
}

/// The same with no moment.
fn ask_alone(joined: &mut Joined<Counter>, list: &List<Counter>) -> io::Result<u64>
    requires list { BelongsTo list.now joined.old }
    requires idle { IsResting joined.old.client (view joined.old) }
    ensures list { BelongsTo list.now joined.new }
    ensures idle { IfOk result (λ _. IsResting joined.new.client (view joined.new)) }
{
    let own = joined.client();
    joined.post(list, 1);
    let Ok(state) = joined.seize(list) else {
        return Err(unanswered());
    };
    let Took::FromPosted(amount) = joined.take(list, own, WordState::Posted) else {
        return Err(unanswered());
    };
    let state = Counter::serve(joined, list, own, amount, state);
    joined.release(list, state);
    reply_of(joined, list).ok_or(unanswered())
}

/// The same, and the client serves whoever has joined.
fn ask_by_pass(joined: &mut Joined<Counter>, list: &List<Counter>) -> io::Result<u64>
    requires list { BelongsTo list.now joined.old }
    requires idle { IsResting joined.old.client (view joined.old) }
    ensures list { BelongsTo list.now joined.new }
    ensures idle { IfOk result (λ _. IsResting joined.new.client (view joined.new)) }
{
    joined.post(list, 1);
    if joined.combine_with(list, &OpenGate).is_err() {
        return Err(unanswered());
    }
    reply_of(joined, list).ok_or(unanswered())
}

/// A list of so many clients, all joined, and one of them.
fn opened(rt: &HostRuntime, clients: u32) -> io::Result<(List<Counter>, Joined<Counter>)>
    requires { (1 ≤ clients) × (clients ≤ 64) }
    ensures list { IfOk result (λ m. BelongsTo m.0 m.1) }
    ensures idle { IfOk result (λ m. IsResting m.1.client (view m.1)) }
{
    let (list, fresh) = List::new(rt.alloc(), clients, Counter::new(rt.alloc()))?;
    match joined_one(&list, fresh) {
        Some(joined) => Ok((list, joined)),
        None => Err(unanswered()),
    }
}

/// What each step of a client alone takes, with one reading of the time.
pub fn each_step(rt: &HostRuntime, calls: u32) -> io::Result<[Run; STEPS]> {
    let (list, mut joined) = opened(rt, 1)?;
    let mut runs = [Run::new(calls); STEPS];
    for _ in 0..calls {
        let moments = steps(rt, &mut joined, &list)?;
        for step in 0..STEPS {
            runs[step].add_time_between(moments[step], moments[step + 1]);
            runs[step].add_answer(1);
        }
    }
    Ok(runs)
}

/// What two readings of the time take, one after the other.
pub fn readings(rt: &HostRuntime, calls: u32) -> io::Result<Run> {
    let mut run = Run::new(calls);
    for _ in 0..calls {
        let start = Instant::now(rt)?;
        run.add_time(rt, start)?;
        run.add_answer(1);
    }
    Ok(run)
}

/// All steps of a client alone, together.
pub fn alone(rt: &HostRuntime, calls: u32) -> io::Result<Run> {
    let (list, mut joined) = opened(rt, 1)?;
    let mut run = Run::new(calls);
    let start = Instant::now(rt)?;
    for _ in 0..calls {
        let sum = ask_alone(&mut joined, &list)?;
        run.add_answer(u32::try_from(sum).unwrap_or(u32::MAX));
    }
    run.add_time(rt, start)?;
    Ok(run)
}

/// One of so many clients that joined asks, and looks at each record.
pub fn one_of(rt: &HostRuntime, clients: u32, calls: u32) -> io::Result<Run> {
    let (list, mut joined) = opened(rt, clients.max(1).min(64))?;
    let mut run = Run::new(calls);
    let start = Instant::now(rt)?;
    for _ in 0..calls {
        let sum = ask_by_pass(&mut joined, &list)?;
        run.add_answer(u32::try_from(sum).unwrap_or(u32::MAX));
    }
    run.add_time(rt, start)?;
    Ok(run)
}
