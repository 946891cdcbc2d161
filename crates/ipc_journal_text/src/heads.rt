// The clients of a journal, read from their lines.

ghost use Rattle.std.specs.Prelude.{◌≡◌, ◌≤◌, IfOk, codes, length, option_map};
ghost use Rattle.ipc_journal_text.specs.Gives.{Gives, ids_shown};
ghost use Rattle.ipc_journal_text.specs.Reading.{caps_of as caps_word, client_of as client_words, credentials, identity_by, identity_words, ids_behind as behind_ids, ids_of as ids_words, lists_of as lists_words, pair_behind as behind_pair};
ghost use Rattle.ipc_text.specs.Calls.{new_groups};
ghost use Rattle.ipc_text.specs.Grammar.{number_list as numbers_word};
ghost use Rattle.ipc_words.specs.Words.{words_of};

use crate::errors::{Cause, Wanted};
use crate::rows::{client_and_rest, two_fields, word_behind};
use bitflags::Flags;
use ipc_call::{Boxed, Identity, Items};
use ipc_creds::{Caps, Creds, GROUPS_MAX};
use ipc_text::two_numbers;
use ipc_words::{number, number_32, split_field, split_word};
use std::alloc::{AllocError, Global};

/// The credentials of `client N: effective UID:GID real UID:GID saved UID:GID groups GROUPS caps CAPS`.
#[tactic(auto, unfolding(crate::specs::Reading::client_of))]
pub(crate) fn client_of(alloc: Global, line: &[u8]) -> Result<Creds, Cause>
    ensures { Gives result (client_words (words_of line.now)) }
{
    let Some((ids, words)) = ids_of(line) else {
        return Err(Cause::Wanted(Wanted::Client));
    };
    let Some((groups, caps)) = lists_of(words) else {
        return Err(Cause::Wanted(Wanted::Client));
    };
    let Some(groups) = groups_of(alloc, groups)? else {
        return Err(Cause::Wanted(Wanted::Client));
    };
    match caps_of(caps) {
        Some(caps) if groups.len() <= GROUPS_MAX => Ok(ids.with(groups.as_slice(), caps)),
        _ => Err(Cause::Wanted(Wanted::Client)),
    }
}

/// The users and groups of a client, but for supplementary ones.
#[derive(Clone, Copy)]
pub(crate) struct Ids {
    pub(crate) effective: (u32, u32),
    pub(crate) real: (u32, u32),
    pub(crate) saved: (u32, u32),
}

impl Ids {
    /// The credentials of these, with supplementary groups and capabilities.
    fn with(self, groups: &[u32], caps: Caps) -> Creds
        requires { length groups.now ≤ GROUPS_MAX }
        ensures { result ≡ credentials (ids_shown self) groups.now caps.0 }
    {
        let mut creds = Creds::new(self.real.0, self.real.1, groups, caps).with_saved(
            self.saved.0,
            self.saved.1,
        );
        creds.take_on(self.effective.0, self.effective.1, None);
        creds
    }

    /// The same as a call hands them in.
    fn identity(self, groups: Items<u32>, caps: Caps) -> Identity
        ensures { result ≡ identity_by (ids_shown self) groups caps.0 }
    {
        Identity {
            euid: self.effective.0,
            egid: self.effective.1,
            groups,
            caps: caps.bits(),
            ruid: self.real.0,
            suid: self.saved.0,
            rgid: self.real.1,
            sgid: self.saved.1,
        }
    }
}

fn ids_of(line: &[u8]) -> Option<(Ids, &[u8])>
    ensures { option_map (λ x. (ids_shown x.0, words_of x.1.now)) result ≡ ids_words (words_of line.now) }
{
    let (_, words) = client_and_rest(line)?;
    ids_behind(words)
}

// `effective UID:GID real UID:GID saved UID:GID`
fn ids_behind(words: &[u8]) -> Option<(Ids, &[u8])>
    ensures { option_map (λ x. (ids_shown x.0, words_of x.1.now)) result ≡ behind_ids (words_of words.now) }
{
    let (effective, words) = pair_behind(b"effective", words)?;
    let (real, words) = pair_behind(b"real", words)?;
    let (saved, words) = pair_behind(b"saved", words)?;
    let ids = Ids {
        effective,
        real,
        saved,
    };
    Some((ids, words))
}

/// The credentials of `effective UID:GID real UID:GID saved UID:GID groups GROUPS caps CAPS`, as a call hands them in.
#[tactic(auto, unfolding(crate::specs::Reading::identity_words))]
pub(crate) fn identity_of(
    alloc: Global,
    words: &[u8],
) -> Result<Option<Boxed<Identity>>, AllocError>
    ensures { IfOk result (λ identity. identity ≡ identity_words (words_of words.now)) }
{
    let Some((ids, words)) = ids_behind(words) else {
        return Ok(None);
    };
    let Some((groups, caps)) = lists_of(words) else {
        return Ok(None);
    };
    let Some(caps) = caps_of(caps) else {
        return Ok(None);
    };
    let Some(groups) = groups_of(alloc, groups)? else {
        return Ok(None);
    };
    let identity = ids.identity(Items::new(groups), caps);
    Ok(Some(Boxed::new(alloc, identity)?))
}

// `NAME UID:GID`
fn pair_behind<'a>(name: &[u8], words: &'a [u8]) -> Option<((u32, u32), &'a [u8])>
    ensures { option_map (λ x. (x.0, words_of x.1.now)) result ≡ behind_pair name.now (words_of words.now) }
{
    let (pair, words) = word_behind(name, words)?;
    let (user, group) = two_fields(pair, b':')?;
    let pair = two_numbers(user, group)?;
    Some((pair, words))
}

// `groups GROUPS caps CAPS`
fn lists_of(words: &[u8]) -> Option<(&[u8], &[u8])>
    ensures { option_map (λ x. (x.0.now, x.1.now)) result ≡ lists_words (words_of words.now) }
{
    let (groups, words) = word_behind(b"groups", words)?;
    let (caps, words) = word_behind(b"caps", words)?;
    match split_word(words) {
        None => Some((groups, caps)),
        Some(_) => None,
    }
}

// `-`, or numbers with commas between them.
fn groups_of(alloc: Global, text: &[u8]) -> Result<Option<Vec<u32>>, AllocError>
    ensures { IfOk result (λ groups. option_map (λ x. x.items) groups ≡ new_groups text.now) }
{
    if text == b"-".as_slice() {
        return Ok(Some(Vec::new(alloc)));
    }
    number_list(alloc, text)
}

// Numbers with commas between them.
#[tactic(auto, unfolding(ipc_text::specs::Grammar::number_list))]
fn number_list(alloc: Global, text: &[u8]) -> Result<Option<Vec<u32>>, AllocError>
    ensures { IfOk result (λ numbers. option_map (λ x. x.items) numbers ≡ numbers_word text.now) }
{
    let mut numbers = Vec::new(alloc);
    let mut rest = Some(text);
    while let Some(text) = rest {
        let (field, others) = split_field(text, b',');
        let Some(number) = number_32(field) else {
            return Ok(None);
        };
        numbers.push(number)?;
        rest = others;
    }
    Ok(Some(numbers))
}

// The set as a number; the names behind it follow from it.
fn caps_of(text: &[u8]) -> Option<Caps>
    ensures { option_map (λ x. x.0) result ≡ caps_word text.now }
{
    let (bits, _) = split_field(text, b',');
    let bits = number(bits, u64::from(u8::MAX))?;
    Some(Caps::from_bits_retain(bits as u8))
}
