//! What is true of every desk, whatever its clients have called and taken. Each law is a function that does nothing: what it
//! ensures is the law.

ghost use Rattle.std.specs.Prelude.{◌≡◌, ℕ, ◌≤◌, ◌++◌, length};
ghost use Rattle.ipc_history.specs.History.{replies};
ghost use Rattle.ipc_desk.specs.Desks.{given_to};
ghost use Rattle.ipc_desk.specs.Kept.{kept_for};

use crate::desk::Desk;

/// No reply is lost, and none comes twice: what a client has been given, in the order in which it was given, and then what is
/// kept for it, are the replies of the history to its calls. At most one is kept for a client.
pub fn nothing_is_lost(desk: &Desk)
    ensures whole { (client : ℕ)
        → given_to desk.now client ++ kept_for desk.now.kept client ≡ replies desk.now.history client }
    ensures few { (client : ℕ) → length (kept_for desk.now.kept client) ≤ 1 }
{
    let _kept = &desk.kept;
}
