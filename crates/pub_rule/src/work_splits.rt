//! The start, and one law for each kind of split and merge where what is served is known too.
//!
//! They are the project's own: in flat combining no client tells another anything.
ghost use Rattle.std.specs.Prelude.{ℕ};
ghost use Rattle.pub_rule.specs.WorkSplits.{Opens, KeptByClientSplit, KeptByTokenSplit, KeptByTokenMerge};

use crate::served::Served;

/// The start: the rule holds of a table whose words are 0, whose slots are empty but for the last, and in the
/// history of whose state nobody has called.
pub fn opening<S: Served>()
    ensures { (n : ℕ) → Opens S.Served n }
{}

/// Split, for the seat of a client at the start: the first seat makes the next client's.
pub fn split_client<S: Served>()
    ensures { (n : ℕ) → KeptByClientSplit S.Served n }
{}

/// Split, for a token: a client that joined tells so, and what it knows.
pub fn split_token<S: Served>()
    ensures { (n : ℕ) → KeptByTokenSplit S.Served n }
{}

/// Merge: a client takes in what a token tells, and the token is spent.
pub fn merge_token<S: Served>()
    ensures { (n : ℕ) → KeptByTokenMerge S.Served n }
{}
