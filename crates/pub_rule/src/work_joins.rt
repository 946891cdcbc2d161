//! How seats come and go, as a publication list is closed.
use crate::served::Slot;
use crate::walk::View;
use crate::work::Work;
use atomic_table::{Join, Play};

/// A new seat of no client, which takes in those of the clients.
pub struct EnterCloser;

impl<E, C, R, S> Play<Slot<C, R, S>, View<Work<E, C, R>>> for EnterCloser {
    ghost use Rattle.pub_rule.specs.WorkClosing.{has_entered};

    ghost then = { λ st m k m'. has_entered m' };
}

/// Merge: the seat of a client is spent, and that which closes the list keeps what it told.
pub struct MergeClient;

impl<E, C, R> Join<View<Work<E, C, R>>> for MergeClient {
    ghost use Rattle.pub_rule.specs.WorkClosing.{view_closing};
    ghost use Rattle.pub_rule.specs.WorkSplits.{view_spent};

    ghost both = { view_closing };

    ghost spent = { view_spent };
}
