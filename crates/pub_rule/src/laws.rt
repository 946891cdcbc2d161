//! One law for each kind of step on the list: the rule before it and the step's change give the rule after
//! it.
//!
//! A law holds whatever the other half of the rule says, as that doesn't look at the words of the list; it says too
//! what the step tells. It treats the seat that steps and any one other. These are the kinds of step by which a record
//! joins the list and a combiner walks it in flat combining; the splits and the merge are the project's own.
ghost use Rattle.std.specs.Prelude.{ℕ};
ghost use Rattle.pub_rule.specs.Laws.{
  KeptBySplitClient,
  KeptBySplitToken,
  KeptByMerge,
  KeptByMergeSeat,
  KeptByStoreNext,
  KeptByLoadHead,
  KeptByExchangeHead,
  KeptByLoadNext,
};

use crate::rule::Half;

/// Split, for the seat of a client at the start: the first seat, which has made those of the clients below
/// `k`, makes that of client `k`, if it is one of the `n`.
pub fn split_client<T, W, H, P: Half<T, W, H>>()
    ensures { (n : ℕ) → KeptBySplitClient n (P.serves n) }
{}

/// Split, for a token: a client that joined tells so.
pub fn split_token<T, W, H, P: Half<T, W, H>>()
    ensures { (n : ℕ) → KeptBySplitToken n (P.serves n) }
{}

/// Merge: any seat takes in what a token tells, and the token is spent.
pub fn merge<T, W, H, P: Half<T, W, H>>()
    ensures { (n : ℕ) → KeptByMerge n (P.serves n) }
{}

/// Merge, as the list is closed: a seat is spent, and the one that takes it in knows of the list what it
/// knew.
pub fn merge_seat<T, W, H, P: Half<T, W, H>>()
    ensures { (n : ℕ) → KeptByMergeSeat n (P.serves n) }
{}

/// Store next: an unjoined client writes its own next word. It may be any value, as nobody reads it before
/// the client joins; `exchange_head` asks that it is the head that the client loaded.
pub fn store_next<T, W, H, P: Half<T, W, H>>()
    ensures { (n : ℕ) → KeptByStoreNext n (P.serves n) }
{}

/// Load head: any seat sees the whole list.
pub fn load_head<T, W, H, P: Half<T, W, H>>()
    ensures { (n : ℕ) → KeptByLoadHead n (P.serves n) }
{}

/// Exchange head: an unjoined client, whose next word holds the head that it loaded, makes the head its own
/// number + 1. Success joins it.
pub fn exchange_head<T, W, H, P: Half<T, W, H>>()
    ensures { (n : ℕ) → KeptByExchangeHead n (P.serves n) }
{}

/// Load next: any seat sees who stands behind a client that it knows to have joined.
pub fn load_next<T, W, H, P: Half<T, W, H>>()
    ensures { (n : ℕ) → KeptByLoadNext n (P.serves n) }
{}
