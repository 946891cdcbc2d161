//! How a combiner serves a posted call: the namespace decides on it, and its replies are handed out.
ghost use Rattle.std.specs.Prelude.{◌≡◌, ◌<◌, box_value, length, IfOk, OnErr};
ghost use Rattle.ipc_history.specs.History.{IsLegal};
ghost use Rattle.pub_rule.specs.WorkSteps.{with_work, paying};
ghost use Rattle.pub_list.specs.Clients.{view, work, BelongsTo, IsSame};
ghost use Rattle.pub_list.specs.Passing.{IsAsFar};
ghost use Rattle.ipc_combiner.specs.Entries.{own as calls, replies};
ghost use Rattle.ipc_combiner.specs.declared.entries.Keeping.TheVariants.{UntilTaken};
ghost use Rattle.ipc_combiner.specs.Serving.{entries_in, given_after, history_of, HasEntered, HasKept, IsHanding, OwesReply, Serves as IsServing};

use crate::entries::Keeping;
use crate::shared::Shared;
use ipc_call::{Call, Memory, Reply};
use ipc_space::{Effects, Ledger};
use pub_list::{Answer, Joined, List, Serves, WordState};

/// The call enters as the next event, on the credentials of its client. It is answered, or left parked where it
/// waits; the replies to the waiting calls that it ends are handed out. Where memory is refused it is answered
/// so, and nothing has changed.
impl Serves for Shared {
    ghost use Rattle.ipc_combiner.specs.Entries.{has_clients};
    ghost use Rattle.ipc_combiner.specs.Laws.{stays};

    ghost admits = { has_clients };

    ghost stays = { stays };

    fn serve(
        combiner: &mut Joined<Shared>,
        list: &List<Shared>,
        client: u32,
        call: (u64, Call),
        mut state: Shared,
    ) -> Shared {
        let (now, asked) = call;
        let Ok(effects) = state.apply(client, now, asked) else {
            return combiner.answer(list, client, Answer::Memory, state);
        };
        let Effects { own, others, .. } = effects;
        match own {
            Some(reply) => {
                let entered = combiner.answer(list, client, Answer::Reply(reply), state);
                hand_out(combiner, list, others, entered)
            }
            None => {
                let parked = combiner.mark_parked(list, client, state);
                hand_out(combiner, list, others, parked)
            }
        }
    }
}

impl Shared {
    // Enters a call of a client none of whose calls waits.
    fn apply(&mut self, client: u32, now: u64, call: Call) -> Result<Effects, Memory>
        requires known { client < length (history_of self.old).clients }
        requires legal { IsLegal (history_of self.old) }
        requires free { length (calls (entries_in self.old) client) ≡ length (replies (entries_in self.old) client) }
        ensures ok { IfOk result (λ effects. HasEntered client now call (history_of self.old) (history_of self.new) effects.own effects.others.items) }
        ensures err { OnErr result (entries_in self.new ≡ entries_in self.old) }
        ensures keeping { self.new.keeping ≡ self.old.keeping }
        ensures given { self.old.keeping ≡ UntilTaken → (box_value self.new.ledger).given ≡ (box_value self.old.ledger).given }
    {
        let entered = self.ledger.apply(client, now, call);
        forget(&mut self.ledger, self.keeping);
        entered
    }
}

// Hands the rows of the last event out to nobody, where none are kept.
#[inline(always)]
fn forget(ledger: &mut Ledger, keeping: Keeping)
    ensures history { ledger.new.history ≡ ledger.old.history }
    ensures given { ledger.new.given ≡ given_after keeping ledger.old }
{
    if let Keeping::Nothing = keeping {
        ledger.forget_rows();
    }
}

// Hands out the replies to the waiting calls that the last event ended.
fn hand_out(
    combiner: &mut Joined<Shared>,
    list: &List<Shared>,
    others: Vec<(u32, Reply)>,
    mut state: Shared,
) -> Shared
    requires list { BelongsTo list.now combiner.old }
    requires handing { IsHanding list.now.clients (view combiner.old) state others.items }
    ensures client { IsSame combiner.old combiner.new }
    ensures serving { IsServing list.now.clients (view combiner.new) result }
    ensures far { IsAsFar (view combiner.old) (view combiner.new) }
    ensures kept { HasKept (view combiner.old) (view combiner.new) }
{
    for told in others {
        let (other, reply) = told;
        state = hand(combiner, list, other, reply, state);
    }
    state
}

// Hands a reply to a client whose waiting call the last event ended.
fn hand(
    combiner: &mut Joined<Shared>,
    list: &List<Shared>,
    other: u32,
    reply: Reply,
    state: Shared,
) -> Shared
    requires list { BelongsTo list.now combiner.old }
    requires other { other < list.now.clients }
    requires owes { OwesReply (view combiner.old) state other reply }
    ensures client { IsSame combiner.old combiner.new }
    ensures paid { view combiner.new ≡ with_work (paying other (work combiner.old)) (view combiner.old) }
    ensures state { result ≡ state }
{
    combiner.take(list, other, WordState::Parked);
    combiner.answer(list, other, Answer::Reply(reply), state)
}
