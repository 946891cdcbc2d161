//! The kinds of step on the list, and what each tells the seat that takes it.
//!
//! The exchange of the head after a store to the own next word is how a record joins the list in flat combining, and
//! the loads are how a combiner walks it. The splits and the merge are the project's own.
use crate::walk::View;
use crate::work::Work;
use atomic_table::{Join, Play, Split};

/// Load head: the whole list is seen.
pub struct LoadHead;

impl<T, W> Play<T, View<W>> for LoadHead {
    ghost use Rattle.pub_rule.specs.Steps.{head_loaded};

    ghost then = { head_loaded };
}

/// Store next: an unjoined client's own next word becomes the head that it loaded.
pub struct StoreNext;

impl<T, W> Play<T, View<W>> for StoreNext {
    ghost use Rattle.pub_rule.specs.Steps.{next_stored};

    ghost then = { next_stored };
}

/// Exchange head: from the value loaded to the own number + 1. Success joins the client, and a failure tells that the
/// list has grown.
pub struct ExchangeHead;

impl<T, W> Play<T, View<W>> for ExchangeHead {
    ghost use Rattle.pub_rule.specs.Steps.{head_exchanged};

    ghost then = { head_exchanged };
}

/// Load next: which client stands behind one that is known to have joined.
pub struct LoadNext;

impl<T, W> Play<T, View<W>> for LoadNext {
    ghost use Rattle.pub_rule.specs.Steps.{next_loaded};

    ghost then = { next_loaded };
}

/// Split: the first seat makes the seat of the next client.
pub struct SplitClient;

impl<E, C, R> Split<View<Work<E, C, R>>> for SplitClient {
    ghost use Rattle.pub_rule.specs.WorkSplits.{maker_after, client_made};

    ghost left = { maker_after };

    ghost right = { client_made };
}

/// Split: a joined client makes a token, which tells that it joined, the history that it saw, the number of its posts,
/// and the posts that a combiner is known to have dealt with.
pub struct SplitToken;

impl<E, C, R> Split<View<Work<E, C, R>>> for SplitToken {
    ghost use Rattle.pub_rule.specs.WorkSplits.{token_made};

    ghost left = { λ v. v };

    ghost right = { token_made };
}

/// Merge: a client takes in what a token tells, and the token is spent.
pub struct MergeToken;

impl<E, C, R> Join<View<Work<E, C, R>>> for MergeToken {
    ghost use Rattle.pub_rule.specs.WorkSplits.{view_taught, view_spent};

    ghost both = { view_taught };

    ghost spent = { view_spent };
}
