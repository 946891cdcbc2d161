//! The namespace, as clients share it.
ghost use Rattle.std.specs.Prelude.{◌≡◌, box_value, length};
ghost use Rattle.ipc_history.specs.History.{rows_of};
ghost use Rattle.ipc_combiner.specs.declared.entries.Keeping.TheVariants.{Nothing, Whole};

use crate::entries::{Entry, Keeping};
use ipc_call::{Call, Reply};
use ipc_space::Ledger;
use pub_rule::Served;

/// A namespace that clients share. It lies in a box, so that it is handed on by its address.
#[derive(Drop)]
pub struct Shared {
    pub(crate) ledger: Box<Ledger>,
    pub(crate) keeping: Keeping,
    ghost whole: { keeping ≡ Whole → (box_value ledger).given ≡ 0 },
    ghost nothing: { keeping ≡ Nothing → (box_value ledger).given ≡ length (rows_of (box_value ledger).history) },
}

impl Served for Shared {
    ghost use Rattle.std.specs.Prelude.{box_value};
    ghost use Rattle.ipc_combiner.specs.Entries.{entries_of, legal, client_of, call_of, own, replies};
    ghost use Rattle.ipc_combiner.specs.Laws.{own_call, own_other, one_more, no_more};

    type Event = Entry;

    type Call = (u64, Call);

    type Reply = Reply;

    ghost history = { λ s. entries_of s.keeping (box_value s.ledger).history };

    ghost legal = { legal };

    ghost client = { client_of };

    ghost call = { call_of };

    ghost own = { own };

    ghost replies = { replies };

    ghost own_call = { own_call };

    ghost own_other = { own_other };

    ghost one_more = { one_more };

    ghost no_more = { no_more };
}
