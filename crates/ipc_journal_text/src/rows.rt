// The rows of a journal, read from their lines.

ghost use Rattle.std.specs.Prelude.{◌≡◌, ◌≢◌, [], ◌∷◌, IfOk, MatchOption, codes, length, option_map};
ghost use Rattle.ipc_journal_text.specs.Gives.{Gives};
ghost use Rattle.ipc_journal_text.specs.Reading.{begin_words, call_in as call_of_words, called_of as called_of_words, client_head, ending_of as ending_words, kind_option, naming_call, placed, numbered as number_word, row_of as row_of_line, answered_of as answered_of_words, timed, word_behind as behind_word};
ghost use Rattle.ipc_text.specs.Grammar.{of_first, of_one};
ghost use Rattle.ipc_words.specs.Words.{fields_of, words_of};

use crate::errors::{Cause, Wanted};
use crate::heads::identity_of;
use crate::rules::rule_named;
use ipc_call::{Call, JournalRow, Rule};
use ipc_text::{call_of, first_two, four_words, kind_named, naming_of, one_word};
use ipc_words::{number, number_32, split_field, split_word};
use std::alloc::{AllocError, Global};

/// The row of a line.
#[tactic(auto, unfolding(crate::specs::Reading::row_of))]
pub(crate) fn row_of(alloc: Global, line: &[u8]) -> Result<JournalRow, Cause>
    ensures { Gives result (row_of_line line.now) }
{
    if let Some(words) = line.strip_prefix(b"at ") {
        return called_of(alloc, words);
    }
    match line.strip_prefix(b"  ") {
        Some(words) => answered_of(words),
        None => Err(Cause::Wanted(Wanted::Row)),
    }
}

// `TIME client N: CALL`
fn called_of(alloc: Global, words: &[u8]) -> Result<JournalRow, Cause>
    ensures { Gives result (called_of_words (words_of words.now)) }
{
    let Some((now, client, words)) = time_and_client(words) else {
        return Err(Cause::Wanted(Wanted::Row));
    };
    match call_in(alloc, words)? {
        Some(call) => Ok(JournalRow::Called { client, now, call }),
        None => Err(Cause::Wanted(Wanted::Call)),
    }
}

fn time_and_client(words: &[u8]) -> Option<(u64, u32, &[u8])>
    ensures { option_map (λ x. (x.0, x.1, words_of x.2.now)) result ≡ of_first timed (words_of words.now) }
{
    let (now, words) = split_word(words)?;
    let now = number(now, u64::MAX)?;
    let (client, words) = client_and_rest(words)?;
    Some((now, client, words))
}

/// The number of `client N:`, and what follows it.
pub(crate) fn client_and_rest(words: &[u8]) -> Option<(u32, &[u8])>
    ensures { option_map (λ x. (x.0, words_of x.1.now)) result ≡ client_head (words_of words.now) }
{
    let (client, words) = word_behind(b"client", words)?;
    let client = numbered(client)?;
    Some((client, words))
}

// The number of `N:`.
fn numbered(word: &[u8]) -> Option<u32>
    ensures { result ≡ number_word word.now }
{
    number_32(word.strip_suffix(b":")?)
}

/// What stands behind a word of this name, and what follows it.
pub(crate) fn word_behind<'a>(name: &[u8], words: &'a [u8]) -> Option<(&'a [u8], &'a [u8])>
    ensures { option_map (λ x. (x.0.now, words_of x.1.now)) result ≡ behind_word name.now (words_of words.now) }
{
    let (word, value, words) = first_two(words)?;
    if word != name {
        return None;
    }
    Some((value, words))
}

/// The two fields of a word, which a separator parts.
pub(crate) fn two_fields(word: &[u8], separator: u8) -> Option<(&[u8], &[u8])>
    ensures { MatchOption result (length (fields_of separator word.now) ≢ 2) (λ x. fields_of separator word.now ≡ x.0.now ∷ x.1.now ∷ []) }
{
    let (first, rest) = split_field(word, separator);
    match split_field(rest?, separator) {
        (second, None) => Some((first, second)),
        (_, Some(_)) => None,
    }
}

// The call of the words. A listing is that of one option of ipcs(1).
#[tactic(auto, unfolding(crate::specs::Reading::call_in))]
fn call_in(alloc: Global, words: &[u8]) -> Result<Option<Call>, AllocError>
    ensures { IfOk result (λ call. call ≡ call_of_words (words_of words.now)) }
{
    let Some((word, rest)) = split_word(words) else {
        return Ok(None);
    };
    if word == b"ipcs".as_slice() {
        Ok(listing_of(rest))
    } else if word == b"begin".as_slice() {
        begin_of(alloc, rest)
    } else if word == b"assume:".as_slice() {
        let creds = identity_of(alloc, rest)?;
        Ok(creds.map(|creds| Call::Assume { creds }))
    } else if let Some(call) = call_naming(words) {
        Ok(Some(call))
    } else {
        call_of(alloc, words)
    }
}

// `PID: CREDENTIALS`
fn begin_of(alloc: Global, words: &[u8]) -> Result<Option<Call>, AllocError>
    ensures { IfOk result (λ call. call ≡ of_first begin_words (words_of words.now)) }
{
    let Some((pid, words)) = split_word(words) else {
        return Ok(None);
    };
    let Some(pid) = numbered(pid) else {
        return Ok(None);
    };
    let creds = identity_of(alloc, words)?;
    Ok(creds.map(|creds| Call::Begin { pid, creds }))
}

// A call that names another client, as `client:N`.
fn call_naming(words: &[u8]) -> Option<Call>
    ensures { result ≡ naming_call (words_of words.now) }
{
    let (word, naming) = naming_of(words)?;
    let client = number_32(word.strip_prefix(b"client:")?)?;
    Some(naming.call(client))
}

fn listing_of(words: &[u8]) -> Option<Call>
    ensures { result ≡ of_one kind_option (words_of words.now) }
{
    let kind = kind_named(one_word(words)?.strip_prefix(b"-")?)?;
    Some(Call::Listing { kind })
}

// `PLACE.TURN client N: ANSWER`
fn answered_of(words: &[u8]) -> Result<JournalRow, Cause>
    ensures { Gives result (answered_of_words (words_of words.now)) }
{
    let Some((place, turn, words)) = place_and_turn(words) else {
        return Err(Cause::Wanted(Wanted::Row));
    };
    let Some((client, words)) = client_and_rest(words) else {
        return Err(Cause::Wanted(Wanted::Row));
    };
    match ending_of(words) {
        Some(rule) => Ok(JournalRow::Answered {
            client,
            place,
            turn,
            rule,
        }),
        None => Err(Cause::Wanted(Wanted::Answer)),
    }
}

fn place_and_turn(words: &[u8]) -> Option<(u64, u32, &[u8])>
    ensures { option_map (λ x. (x.0, x.1, words_of x.2.now)) result ≡ of_first placed (words_of words.now) }
{
    let (event, words) = split_word(words)?;
    let (place, turn) = two_fields(event, b'.')?;
    let place = number(place, u64::MAX)?;
    let turn = number_32(turn)?;
    Some((place, turn, words))
}

// `granted`, or `error NUMBER NAME RULE`, of which the rule alone is read.
#[tactic(auto, unfolding(crate::specs::Reading::ending_of))]
fn ending_of(words: &[u8]) -> Option<Option<Rule>>
    ensures { result ≡ ending_words (words_of words.now) }
{
    if let Some(word) = one_word(words) {
        return if word == b"granted".as_slice() {
            Some(None)
        } else {
            None
        };
    }
    let (_, _, _, rule) = four_words(words)?;
    Some(Some(rule_named(rule)?))
}
