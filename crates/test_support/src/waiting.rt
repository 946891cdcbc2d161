//! How a thread waits for another.

use crossbeam_utils::Backoff;
use std::sync::atomic::{AtomicU64, Ordering};

/// How often a thread looks for another before it gives up.
pub const TURNS: u64 = 10_000_000;

/// Waits for a word to be 1, for `TURNS` turns at most. Whether it was.
pub fn wait_for(word: &AtomicU64) -> bool {
    let backoff = Backoff::new();
    for _ in 0..TURNS {
        if word.load(Ordering::SeqCst) == 1 {
            return true;
        }
        backoff.snooze();
    }
    false
}
