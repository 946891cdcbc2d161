// What the words behind a directive say.

ghost use Rattle.std.specs.Prelude.{◌≡◌, ◌≤◌, [], codes, option_map, vec_len, IfOk, IfSome, IsTrue};
ghost use Rattle.ipc_text.specs.Grammar.{capability_list as capabilities_words, capability_named as capability_word, client_of as client_line, client_words as client_parts, clock_of as clock_words};
ghost use Rattle.ipc_text.specs.Grammar.{group_list as groups_words, limit_of as limit_words, option_text as text_of_option, optional, options_of as options_words, saved_pair as saved_words};
ghost use Rattle.ipc_call.specs.Limits.{is_in_range};
ghost use Rattle.ipc_words.specs.Words.{words_of};

use crate::lists::{number_list, two_numbers};
use crate::settings::{limit_named, value_of};
use bitflags::Flags;
use ipc_call::Limit;
use ipc_creds::{Caps, Creds, GROUPS_MAX};
use ipc_words::{Name, first_two, number, one_word, split_field, split_word, two_words};
use std::alloc::{AllocError, Global};

/// The client of `NAME EUID EGID [groups=G,G,..] [caps=C,C,..] [saved=SUID:SGID]`, the words behind `client`; `None`
/// where they aren't of this form. `AllocError` comes only where a growth was refused.
#[tactic(auto, unfolding(crate::specs::Grammar::client_of))]
pub fn client_of(alloc: Global, words: &[u8]) -> Result<Option<(Name, Creds)>, AllocError>
    ensures { IfOk result (λ client. client ≡ client_line (words_of words.now)) }
{
    let Some((name, words)) = split_word(words) else {
        return Ok(None);
    };
    let Some((euid, egid, options)) = first_two(words) else {
        return Ok(None);
    };
    client_words(alloc, name, euid, egid, options)
}

fn client_words(
    alloc: Global,
    name: &[u8],
    euid: &[u8],
    egid: &[u8],
    options: &[u8],
) -> Result<Option<(Name, Creds)>, AllocError>
    ensures { IfOk result (λ client. client ≡ client_parts name.now euid.now egid.now (words_of options.now)) }
{
    let Some(name) = Name::from_word(alloc, name)? else {
        return Ok(None);
    };
    let Some((euid, egid)) = two_numbers(euid, egid) else {
        return Ok(None);
    };
    let Some(creds) = options_of(alloc, euid, egid, options)? else {
        return Ok(None);
    };
    Ok(Some((name, creds)))
}

pub(crate) fn options_of(
    alloc: Global,
    uid: u32,
    gid: u32,
    words: &[u8],
) -> Result<Option<Creds>, AllocError>
    ensures { IfOk result (λ creds. creds ≡ options_words uid gid (words_of words.now)) }
{
    let Some((groups, words)) = groups_of(alloc, words)? else {
        return Ok(None);
    };
    let Some((caps, words)) = caps_of(words) else {
        return Ok(None);
    };
    let Some(((suid, sgid), words)) = saved_of((uid, gid), words) else {
        return Ok(None);
    };
    let creds = Creds::new(uid, gid, groups.as_slice(), caps).with_saved(suid, sgid);
    match split_word(words) {
        None => Ok(Some(creds)),
        Some(_) => Ok(None),
    }
}

fn groups_of(alloc: Global, words: &[u8]) -> Result<Option<(Vec<u32>, &[u8])>, AllocError>
    ensures value { IfOk result (λ groups. option_map (λ x. (x.0.items, words_of x.1.now)) groups ≡ optional (codes "groups=") groups_words [] (words_of words.now)) }
    ensures few { IfOk result (λ groups. IfSome groups (λ x. vec_len x.0 ≤ 32)) }
{
    let Some((text, rest)) = option_text(b"groups=", words) else {
        return Ok(Some((Vec::new(alloc), words)));
    };
    let Some(groups) = group_list(alloc, text)? else {
        return Ok(None);
    };
    Ok(Some((groups, rest)))
}

fn caps_of(words: &[u8]) -> Option<(Caps, &[u8])>
    ensures { option_map (λ x. (x.0.0, words_of x.1.now)) result ≡ optional (codes "caps=") capabilities_words 0 (words_of words.now) }
{
    let Some((text, rest)) = option_text(b"caps=", words) else {
        return Some((Caps::empty(), words));
    };
    let caps = capability_list(text)?;
    Some((caps, rest))
}

fn saved_of(effective: (u32, u32), words: &[u8]) -> Option<((u32, u32), &[u8])>
    ensures { option_map (λ x. (x.0, words_of x.1.now)) result ≡ optional (codes "saved=") saved_words effective (words_of words.now) }
{
    let Some((text, rest)) = option_text(b"saved=", words) else {
        return Some((effective, words));
    };
    let saved = saved_pair(text)?;
    Some((saved, rest))
}

/// The text behind the prefix of the first word, and what follows the word; `None` where it has another beginning.
pub(crate) fn option_text<'a>(prefix: &[u8], words: &'a [u8]) -> Option<(&'a [u8], &'a [u8])>
    ensures { option_map (λ x. (x.0.now, words_of x.1.now)) result ≡ text_of_option prefix.now (words_of words.now) }
{
    let (word, rest) = split_word(words)?;
    let text = word.strip_prefix(prefix)?;
    Some((text, rest))
}

fn group_list(alloc: Global, text: &[u8]) -> Result<Option<Vec<u32>>, AllocError>
    ensures value { IfOk result (λ groups. option_map (λ x. x.items) groups ≡ groups_words text.now) }
    ensures few { IfOk result (λ groups. IfSome groups (λ x. vec_len x ≤ 32)) }
{
    let Some(groups) = number_list(alloc, text)? else {
        return Ok(None);
    };
    if groups.len() > GROUPS_MAX {
        return Ok(None);
    }
    Ok(Some(groups))
}

#[tactic(auto, unfolding(crate::specs::Grammar::capability_list))]
fn capability_list(text: &[u8]) -> Option<Caps>
    ensures { option_map (λ x. x.0) result ≡ capabilities_words text.now }
{
    let mut caps = Caps::empty();
    let mut rest = Some(text);
    while let Some(text) = rest {
        let (field, others) = split_field(text, b',');
        caps.insert(capability_named(field)?);
        rest = others;
    }
    Some(caps)
}

#[tactic(auto, unfolding(crate::specs::Grammar::capability_named))]
fn capability_named(word: &[u8]) -> Option<Caps>
    ensures { option_map (λ x. x.0) result ≡ capability_word word.now }
{
    match word {
        b"IPC_OWNER" => Some(Caps::IPC_OWNER),
        b"SYS_ADMIN" => Some(Caps::SYS_ADMIN),
        b"SYS_RESOURCE" => Some(Caps::SYS_RESOURCE),
        b"SETUID" => Some(Caps::SETUID),
        b"SETGID" => Some(Caps::SETGID),
        _ => None,
    }
}

fn saved_pair(text: &[u8]) -> Option<(u32, u32)>
    ensures { result ≡ saved_words text.now }
{
    let (user, rest) = split_field(text, b':');
    match split_field(rest?, b':') {
        (group, None) => two_numbers(user, group),
        (_, Some(_)) => None,
    }
}

/// The limit of `LIMIT N`, the words behind `limit`, and its value, in its range; `None` where they aren't of this
/// form.
#[tactic(auto, unfolding(crate::specs::Grammar::limit_of))]
pub fn limit_of(words: &[u8]) -> Option<(Limit, u32)>
    ensures value { result ≡ limit_words (words_of words.now) }
    ensures in_range { IfSome result (λ x. IsTrue (is_in_range x.0 x.1)) }
{
    let (word, value) = two_words(words)?;
    let limit = limit_named(word)?;
    let value = value_of(limit, value)?;
    Some((limit, value))
}

/// The time of `N`, the word behind `clock`, in seconds; `None` where it isn't a number of 64 bits.
#[tactic(auto, unfolding(crate::specs::Grammar::clock_of))]
pub fn clock_of(words: &[u8]) -> Option<u64>
    ensures { result ≡ clock_words (words_of words.now) }
{
    number(one_word(words)?, u64::MAX)
}
