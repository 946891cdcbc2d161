// The limits that a script can set.

ghost use Rattle.std.specs.Prelude.{◌≡◌, IfSome, IsTrue};
ghost use Rattle.ipc_call.specs.Limits.{is_in_range};
ghost use Rattle.ipc_text.specs.Settings.{limit_named as limit_of_word, value_of as value_of_word};

use ipc_call::Limit;
use ipc_words::number;

/// The limit that the word names.
#[tactic(auto, unfolding(crate::specs::Settings::limit_named))]
pub fn limit_named(word: &[u8]) -> Option<Limit>
    ensures { result ≡ limit_of_word word.now }
{
    match word {
        b"slots" => Some(Limit::Slots),
        b"queues" => Some(Limit::Queues),
        b"sets" => Some(Limit::Sets),
        b"segments" => Some(Limit::Segments),
        b"first-seq" => Some(Limit::FirstSeq),
        b"msgmax" => Some(Limit::MsgMax),
        b"msgmnb" => Some(Limit::MsgMnb),
        b"semmsl" => Some(Limit::SemMsl),
        b"semopm" => Some(Limit::SemOpm),
        b"shmmax" => Some(Limit::ShmMax),
        _ => None,
    }
}

/// The value of the limit, where the word writes one in its range.
pub(crate) fn value_of(limit: Limit, word: &[u8]) -> Option<u32>
    ensures value { result ≡ value_of_word limit word.now }
    ensures in_range { IfSome result (λ value. IsTrue (is_in_range limit value)) }
{
    let value = number(word, u64::from(limit.most()))? as u32;
    if value < limit.least() {
        return None;
    }
    Some(value)
}
