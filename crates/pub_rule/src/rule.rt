//! The rule of the table, in two halves: that of the list, and one beside it.
ghost use Rattle.std.specs.Prelude.{ℕ, List};
ghost use mathlib.Core.Option.{Option};
ghost use Rattle.pub_rule.specs.Rule.{IsIndependent, HasSlots};

use crate::served::{Served, Slot};
use crate::walk::View;
use crate::work::Work;
use atomic_table::TableRule;
use std::marker::PhantomData;
use std::snapshot::Snapshot;

/// The half of a rule that speaks of what is served: of the words that aren't the list's, of what lies in the slots,
/// and of what seats know of it. The laws of the list hold beside any such half.
pub trait Half<T, W, H> {
    // what it says for so many clients of the words, of the slots at home and of what the seats know
    ghost serves: { ℕ → List ℕ → List (Option T) → List W → Type 0 };

    // what the first seat knows, by what is known at the start
    ghost first: { H → W };

    // it doesn't look at the words of the list
    ghost independent: { (n : ℕ) → IsIndependent n (serves n) };

    // there is a slot for each client and one more
    ghost sized: { (n : ℕ) → HasSlots n (serves n) };
}

/// The rule of a publication list beside the half `P`; its key is the number of clients, and what the half knows at the
/// start. From the head word the next words give a list of distinct clients, exactly those that joined.
pub struct Listed<P> {
    half: PhantomData<P>,
}

impl<T, W, H, P: Half<T, W, H>> TableRule<T, View<W>, (u64, H)> for Listed<P> {
    ghost use Rattle.pub_rule.specs.Rule.{Ruled, opening_view};

    ghost holds = { λ k. Ruled k.0 (P.serves k.0) };

    ghost first = { λ k. opening_view (P.first k.1) };
}

/// A state is served by whoever combines: the publication records, the lock word and the slots are as the history has
/// it, of which each client's calls and replies are a part.
pub struct Combining<S> {
    served: PhantomData<S>,
}

impl<S: Served> Half<Slot<S::Call, S::Reply, S>, Work<S::Event, S::Call, S::Reply>, Snapshot<S>>
    for Combining<S> {
    ghost use Rattle.pub_rule.specs.Work.{Serves};
    ghost use Rattle.pub_rule.specs.WorkSplits.{opening_work};
    ghost use Rattle.pub_rule.specs.Independent.{independent, sized};

    ghost serves = { Serves S.Served };

    ghost first = { λ s. opening_work (S.history s.value) };

    ghost independent = { independent S.Served };

    ghost sized = { sized S.Served };
}
