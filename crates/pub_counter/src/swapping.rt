//! How a client serves swaps: calls wait.
ghost use Rattle.std.specs.Prelude.{◌≡◌, ◌≢◌, ◌<◌, None};
ghost use Rattle.pub_list.specs.Clients.{view, BelongsTo, IsSame};
ghost use Rattle.pub_list.specs.Passing.{IsAsFar, HasDealt, IsServing, HasTaken};
ghost use Rattle.pub_counter.specs.Counter.{own};
ghost use Rattle.pub_counter.specs.Service.{admits_all};
ghost use Rattle.pub_counter.specs.Swap.{alone, legal, replies};
ghost use Rattle.pub_counter.specs.Swapping.{HasPartner, turns_of};

use crate::swap::Swap;
use pub_list::{Answer, Joined, List, Serves, WordState};

/// The first of two calls waits, and the second brings both the other's amount; a call is answered with Memory
/// where that can't be.
impl Serves for Swap {
    ghost use Rattle.pub_counter.specs.Service.{admits_all};

    ghost admits = { admits_all };

    ghost stays = { λ n h k more known. known };

    fn serve(
        combiner: &mut Joined<Swap>,
        list: &List<Swap>,
        client: u32,
        call: u64,
        state: Swap,
    ) -> Swap {
        match state.waits() {
            None => park(combiner, list, client, call, state),
            Some((partner, other)) => {
                if partner == u64::from(client) || partner >= u64::from(list.clients()) {
                    return combiner.answer(list, client, Answer::Memory, state);
                }
                meet(combiner, list, client, call, partner as u32, other, state)
            }
        }
    }
}

fn park(
    joined: &mut Joined<Swap>,
    list: &List<Swap>,
    client: u32,
    amount: u64,
    mut state: Swap,
) -> Swap
    requires list { BelongsTo list.now joined.old }
    requires taken { HasTaken turns_of legal replies own admits_all list.now.clients client amount (view joined.old) state }
    requires first { alone state.turns.items ≡ None }
    ensures client { IsSame joined.old joined.new }
    ensures serving { IsServing turns_of legal replies list.now.clients (view joined.new) result }
    ensures far { IsAsFar (view joined.old) (view joined.new) }
    ensures dealt { HasDealt client (view joined.old) (view joined.new) }
{
    if state.enter(u64::from(client), amount) {
        joined.mark_parked(list, client, state)
    } else {
        joined.answer(list, client, Answer::Memory, state)
    }
}

fn meet(
    joined: &mut Joined<Swap>,
    list: &List<Swap>,
    client: u32,
    amount: u64,
    partner: u32,
    other: u64,
    mut state: Swap,
) -> Swap
    requires list { BelongsTo list.now joined.old }
    requires taken { HasTaken turns_of legal replies own admits_all list.now.clients client amount (view joined.old) state }
    requires partner { HasPartner list.now.clients client partner other state }
    ensures client { IsSame joined.old joined.new }
    ensures serving { IsServing turns_of legal replies list.now.clients (view joined.new) result }
    ensures far { IsAsFar (view joined.old) (view joined.new) }
    ensures dealt { HasDealt client (view joined.old) (view joined.new) }
{
    if !state.enter(u64::from(client), amount) {
        return joined.answer(list, client, Answer::Memory, state);
    }
    let entered = joined.answer(list, client, Answer::Reply(other), state);
    joined.take(list, partner, WordState::Parked);
    joined.answer(list, partner, Answer::Reply(amount), entered)
}
