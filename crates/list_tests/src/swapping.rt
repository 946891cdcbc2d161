// Calls that wait, and a list that is closed while one waits.
ghost use Rattle.std.specs.Prelude.{◌≡◌, ◌≤◌, false};
ghost use Rattle.pub_list.specs.Clients.{view, work, BelongsTo, IsSame};
ghost use Rattle.pub_counter.specs.Service.{IsResting};

use pub_counter::Swap;
use pub_list::{Answer, End, Joined, List, OpenGate, Took, WordState};
use std::process::Abort;
use std::test::Fail;

/// What a client is told.
pub(crate) fn told(joined: &mut Joined<Swap>, list: &List<Swap>) -> Result<u64, WordState>
    requires list { BelongsTo list.now joined.old }
    requires unheld { (work joined.old).holds ≡ false }
    ensures list { BelongsTo list.now joined.new }
    ensures unheld { (work joined.new).holds ≡ false }
{
    match joined.collect(list) {
        Ok(Answer::Reply(amount)) => Ok(amount),
        Ok(Answer::Memory) => Err(WordState::Free),
        Err(word) => Err(word),
    }
}

/// A client posts, and serves what there is.
pub(crate) fn ask(joined: &mut Joined<Swap>, list: &List<Swap>, amount: u64) -> bool
    requires list { BelongsTo list.now joined.old }
    requires idle { IsResting joined.old.client (view joined.old) }
    ensures list { BelongsTo list.now joined.new }
    ensures unheld { (work joined.new).holds ≡ false }
{
    joined.post(list, amount);
    joined.combine_with(list, &OpenGate).is_ok()
}

#[test]
fn a_parked_call_is_answered_by_a_later_pass(rt: HostRuntime) -> Result<(), Fail> {
    let (list, mut clients) = List::new(rt.alloc(), 2, Swap::new(rt.alloc()))?;
    let mut second = clients.pop().expect(&rt, "a client").join(&list);
    let mut first = clients.pop().expect(&rt, "a client").join(&list);
    assert!(rt; ask(&mut first, &list, 5));
    assert!(rt; matches!(told(&mut first, &list), Err(WordState::Parked)));
    assert!(rt; ask(&mut second, &list, 7));
    assert!(rt; matches!(told(&mut first, &list), Ok(7)));
    assert!(rt; matches!(told(&mut second, &list), Ok(5)));
    Ok(())
}

#[test]
fn a_list_is_closed_while_a_call_waits(rt: HostRuntime) -> Result<(), Fail> {
    let (list, mut clients) = List::new(rt.alloc(), 2, Swap::new(rt.alloc()))?;
    let second = clients.pop().expect(&rt, "a client");
    let mut first = clients.pop().expect(&rt, "a client").join(&list);
    assert!(rt; ask(&mut first, &list, 5));
    let mut closing = list.closing();
    closing.add(End::Fresh(second));
    closing.add(End::Joined(first));
    let state = closing.end();
    assert_eq!(rt; state.turns().len(), 1);
    assert_eq!(rt; state.waits(), Some((0, 5)));
    Ok(())
}

/// How far a record is, in a word.
fn name_of(word: WordState) -> &'static str {
    match word {
        WordState::Free => "free",
        WordState::Posted => "posted",
        WordState::Taken => "taken",
        WordState::Parked => "parked",
        WordState::Answered => "answered",
    }
}

/// How far the records of clients 0 and 1 are, as another client sees them.
fn seen_by(onlooker: &mut Joined<Swap>, list: &List<Swap>) -> (&'static str, &'static str)
    requires list { BelongsTo list.now onlooker.old }
    requires clients { 2 ≤ list.now.clients }
    ensures list { BelongsTo list.now onlooker.new }
{
    let first = name_of(onlooker.look(list, 0));
    let second = name_of(onlooker.look(list, 1));
    (first, second)
}

/// The records of clients 0 and 1 are so far, as another client sees them.
fn check_seen(
    rt: &impl Abort,
    onlooker: &mut Joined<Swap>,
    list: &List<Swap>,
    wanted: (&'static str, &'static str),
)
    requires list { BelongsTo list.now onlooker.old }
    requires clients { 2 ≤ list.now.clients }
    ensures list { BelongsTo list.now onlooker.new }
{
    assert_eq!(rt; seen_by(onlooker, list), wanted);
}

/// A client takes the record of client 1, which another sees meanwhile, and answers it Memory.
fn seen_while_taken(
    taker: &mut Joined<Swap>,
    onlooker: &mut Joined<Swap>,
    list: &List<Swap>,
) -> Option<(&'static str, &'static str)>
    requires taker { BelongsTo list.now taker.old }
    requires onlooker { BelongsTo list.now onlooker.old }
    requires clients { 2 ≤ list.now.clients }
    requires unheld { (work taker.old).holds ≡ false }
    ensures onlooker { BelongsTo list.now onlooker.new }
{
    let state = taker.seize(list).ok()?;
    match taker.take(list, 1, WordState::Posted) {
        Took::FromPosted(_) => {
            let seen = seen_by(onlooker, list);
            taker.answer(list, 1, Answer::Memory, state);
            Some(seen)
        }
        _ => None,
    }
}

/// Clients 0 and 1 post, and another sees how far their records are.
fn look_on(
    rt: &impl Abort,
    onlooker: &mut Joined<Swap>,
    list: &List<Swap>,
    mut first: Joined<Swap>,
    mut second: Joined<Swap>,
)
    requires onlooker { BelongsTo list.now onlooker.old }
    requires first { BelongsTo list.now first }
    requires second { BelongsTo list.now second }
    requires clients { 2 ≤ list.now.clients }
    requires idle { IsResting first.client (view first) × IsResting second.client (view second) }
{
    check_seen(rt, onlooker, list, ("free", "free"));
    first.post(list, 5);
    check_seen(rt, onlooker, list, ("posted", "free"));
    assert!(rt; first.combine_with(list, &OpenGate).is_ok());
    check_seen(rt, onlooker, list, ("parked", "free"));
    second.post(list, 7);
    check_seen(rt, onlooker, list, ("parked", "posted"));
    let meanwhile = seen_while_taken(&mut first, onlooker, list);
    assert_eq!(rt; meanwhile, Some(("parked", "taken")));
    check_seen(rt, onlooker, list, ("parked", "answered"));
    assert!(rt; matches!(told(&mut second, list), Err(WordState::Free)));
    check_seen(rt, onlooker, list, ("parked", "free"));
}

#[test]
fn a_look_at_another_client_tells_how_far_its_record_is(rt: HostRuntime) -> Result<(), Fail> {
    let (list, mut clients) = List::new(rt.alloc(), 3, Swap::new(rt.alloc()))?;
    let mut onlooker = clients.pop().expect(&rt, "a client").join(&list);
    let second = clients.pop().expect(&rt, "a client").join(&list);
    let first = clients.pop().expect(&rt, "a client").join(&list);
    look_on(&rt, &mut onlooker, &list, first, second);
    Ok(())
}

/// How far the own record of a client is, as it looks at it.
fn own_word(joined: &mut Joined<Swap>, list: &List<Swap>) -> &'static str
    requires list { BelongsTo list.now joined.old }
    ensures client { IsSame joined.old joined.new }
    ensures work { ((work joined.new).stage ≡ (work joined.old).stage) × ((work joined.new).holds ≡ (work joined.old).holds) }
{
    let own = joined.client();
    name_of(joined.look(list, own))
}

/// The own record of a client is so far, as it looks at it.
fn check_own(rt: &impl Abort, joined: &mut Joined<Swap>, list: &List<Swap>, wanted: &'static str)
    requires list { BelongsTo list.now joined.old }
    ensures client { IsSame joined.old joined.new }
    ensures work { ((work joined.new).stage ≡ (work joined.old).stage) × ((work joined.new).holds ≡ (work joined.old).holds) }
{
    assert_eq!(rt; own_word(joined, list), wanted);
}

/// A client takes the record of client 1, which that client sees itself, and answers it Memory.
fn taken_as_it_looks(
    taker: &mut Joined<Swap>,
    looker: &mut Joined<Swap>,
    list: &List<Swap>,
) -> Option<&'static str>
    requires taker { BelongsTo list.now taker.old }
    requires looker { BelongsTo list.now looker.old }
    requires clients { 2 ≤ list.now.clients }
    requires unheld { ((work taker.old).holds ≡ false) × ((work looker.old).holds ≡ false) }
    ensures looker { BelongsTo list.now looker.new × ((work looker.new).holds ≡ false) }
{
    let state = taker.seize(list).ok()?;
    match taker.take(list, 1, WordState::Posted) {
        Took::FromPosted(_) => {
            let seen = own_word(looker, list);
            let kept = taker.answer(list, 1, Answer::Memory, state);
            taker.release(list, kept);
            Some(seen)
        }
        _ => None,
    }
}

/// Client 1 looks at its own record in each of its states; the other serves it.
fn look_at_own(
    rt: &impl Abort,
    list: &List<Swap>,
    mut taker: Joined<Swap>,
    mut looker: Joined<Swap>,
)
    requires taker { BelongsTo list.now taker }
    requires looker { BelongsTo list.now looker }
    requires clients { 2 ≤ list.now.clients }
    requires idle { IsResting taker.client (view taker) × IsResting looker.client (view looker) }
{
    check_own(rt, &mut looker, list, "free");
    looker.post(list, 5);
    check_own(rt, &mut looker, list, "posted");
    let meanwhile = taken_as_it_looks(&mut taker, &mut looker, list);
    assert_eq!(rt; meanwhile, Some("taken"));
    check_own(rt, &mut looker, list, "answered");
    assert!(rt; matches!(told(&mut looker, list), Err(WordState::Free)));
    check_own(rt, &mut looker, list, "free");
}

/// The same of a call that waits.
fn look_at_parked(
    rt: &impl Abort,
    list: &List<Swap>,
    mut other: Joined<Swap>,
    mut looker: Joined<Swap>,
)
    requires other { BelongsTo list.now other }
    requires looker { BelongsTo list.now looker }
    requires idle { IsResting other.client (view other) × IsResting looker.client (view looker) }
{
    looker.post(list, 5);
    assert!(rt; other.combine_with(list, &OpenGate).is_ok());
    check_own(rt, &mut looker, list, "parked");
    assert!(rt; ask(&mut other, list, 7));
    check_own(rt, &mut looker, list, "answered");
    assert!(rt; matches!(told(&mut looker, list), Ok(7)));
}

#[test]
fn a_look_at_the_own_record_tells_how_far_it_is(rt: HostRuntime) -> Result<(), Fail> {
    let (list, mut clients) = List::new(rt.alloc(), 2, Swap::new(rt.alloc()))?;
    let looker = clients.pop().expect(&rt, "a client").join(&list);
    let taker = clients.pop().expect(&rt, "a client").join(&list);
    look_at_own(&rt, &list, taker, looker);
    Ok(())
}

#[test]
fn a_look_at_the_own_record_tells_that_its_call_waits(rt: HostRuntime) -> Result<(), Fail> {
    let (list, mut clients) = List::new(rt.alloc(), 2, Swap::new(rt.alloc()))?;
    let looker = clients.pop().expect(&rt, "a client").join(&list);
    let other = clients.pop().expect(&rt, "a client").join(&list);
    look_at_parked(&rt, &list, other, looker);
    Ok(())
}
