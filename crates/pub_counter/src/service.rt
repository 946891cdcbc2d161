//! How a client serves a counter, and asks it.
ghost use Rattle.std.specs.Prelude.{◌≡◌, false, IfSome, IsNone};
ghost use Rattle.pub_list.specs.Clients.{view, work, BelongsTo, IsSame};
ghost use Rattle.pub_counter.specs.Service.{IsTold, HasReply, IsResting};

use crate::counter::Counter;
use crossbeam_utils::Backoff;
use pub_list::{Answer, Joined, List, OpenGate, Serves};

/// A call is answered with the sum, or with Memory where it can't be added.
impl Serves for Counter {
    ghost use Rattle.pub_counter.specs.Service.{admits_all};

    ghost admits = { admits_all };

    ghost stays = { λ n h k more known. known };

    fn serve(
        combiner: &mut Joined<Counter>,
        list: &List<Counter>,
        client: u32,
        call: u64,
        mut state: Counter,
    ) -> Counter {
        match state.add(u64::from(client), call) {
            Some(sum) => combiner.answer(list, client, Answer::Reply(sum), state),
            None => combiner.answer(list, client, Answer::Memory, state),
        }
    }
}

/// Collects the reply to the call of a client, where it is there. An answer Memory is none. The client doesn't combine.
pub fn reply_of(joined: &mut Joined<Counter>, list: &List<Counter>) -> Option<u64>
    requires list { BelongsTo list.now joined.old }
    requires unheld { (work joined.old).holds ≡ false }
    ensures list { IsSame joined.old joined.new }
    ensures unheld { (work joined.new).holds ≡ false }
    ensures told { IsTold joined.old.client (view joined.old) (view joined.new) result }
    ensures some { IfSome result (λ _. IsResting joined.new.client (view joined.new)) }
{
    match joined.collect(list) {
        Ok(Answer::Reply(sum)) => Some(sum),
        _ => None,
    }
}

/// Posts `amount`, and serves what there is, or waits for another to do so, until the reply is there or the turns have
/// run out. `None` where they have.
pub fn ask(
    joined: &mut Joined<Counter>,
    list: &List<Counter>,
    amount: u64,
    turns: &mut u64,
) -> Option<u64>
    requires list { BelongsTo list.now joined.old }
    requires idle { IsResting joined.old.client (view joined.old) }
    ensures list { IsSame joined.old joined.new }
    ensures unheld { (work joined.new).holds ≡ false }
    ensures reply { IfSome result (λ sum. HasReply joined.old.client amount sum (view joined.old) (view joined.new)) }
    ensures none { IsNone result → turns.new ≡ 0 }
    ensures some { IfSome result (λ _. IsResting joined.new.client (view joined.new)) }
{
    joined.post(list, amount);
    let backoff = Backoff::new();
    while *turns > 0 {
        *turns -= 1;
        let reply = reply_of(joined, list);
        if reply.is_some() {
            return reply;
        }
        if joined.combine_with(list, &OpenGate).is_err() {
            backoff.snooze();
        }
    }
    None
}
