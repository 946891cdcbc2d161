//! Which word of the table is which.
//!
//! The words lie in one block of 8 bytes each. The head, the lock and each client's two words begin 128 bytes
//! apart, so that no two of them share a cache line: a next word doesn't change once its client has joined,
//! and its state word changes with every call. The words between are never used, and stay 0.
ghost use Rattle.std.specs.Prelude.{◌≡◌, ◌<◌, ◌≤◌};
ghost use Rattle.pub_rule.specs.Words as words;

/// A state word: its client asks nothing. What a state word says follows flat combining; a call may also be parked.
pub const FREE: u64 = 0;

/// A state word: its client's call is posted.
pub const POSTED: u64 = 1;

/// A state word: a combiner has taken the record.
pub const TAKEN: u64 = 2;

/// A state word: the call is in the history, and has no reply yet.
pub const PARKED: u64 = 3;

/// A state word: the answer lies in the record.
pub const ANSWERED: u64 = 4;

/// The head word: 0 where the list is empty, else the number of its first client + 1.
#[tactic(auto, unfolding(crate::specs::Words::head_word))]
pub fn head_word() -> usize
    ensures { result ≡ words.head_word }
{
    0
}

/// The lock word: 0 where nobody combines, else the number of the combining client + 1.
#[tactic(auto, unfolding(crate::specs::Words::lock_word))]
pub fn lock_word() -> usize
    ensures { result ≡ words.lock_word }
{
    16
}

/// The state word of a client: 0 where it asks nothing.
#[tactic(auto, unfolding(crate::specs::Words::state_word))]
pub fn state_word(client: u32) -> usize
    ensures { result ≡ words.state_word client }
{
    32 * client as usize + 32
}

/// The next word of a client: 0 where it is the last of the list or hasn't joined, else the number of the client behind
/// it + 1.
#[tactic(auto, unfolding(crate::specs::Words::next_word))]
pub fn next_word(client: u32) -> usize
    ensures { result ≡ words.next_word client }
{
    32 * client as usize + 48
}

/// The number of words of a table of `clients` clients.
#[tactic(auto, unfolding(crate::specs::Words::word_count))]
pub fn word_count(clients: u32) -> usize
    ensures { result ≡ words.word_count clients }
{
    32 * clients as usize + 32
}
