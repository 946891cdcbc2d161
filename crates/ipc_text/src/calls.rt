// The calls that the words behind a client's name make.

ghost use Rattle.std.specs.Prelude.{◌≡◌, ◌∷◌, ◌++◌, IfOk, option_map};
ghost use Rattle.ipc_text.specs.CallWords.{call_of as call_words, controls, life_calls, process_calls, read_by, shm_calls, sem_calls, value_calls};
ghost use Rattle.ipc_text.specs.Calls.{exit_of as exit_words, interrupt_of as interrupt_words, kind_named as kind_word, msgget_of as msgget_words, object_of as object_words};
ghost use Rattle.ipc_text.specs.Calls.{groups_option as groups_words, new_groups as new_groups_text, qbytes_of as qbytes_words, set_of as set_line, set_words as set_parts, setcreds_of as setcreds_line, setcreds_words as setcreds_parts};
ghost use Rattle.ipc_text.specs.Calls.{msgrcv_of as msgrcv_line, msgrcv_words as msgrcv_parts, msgsnd_of as msgsnd_line, msgsnd_words as msgsnd_parts};
ghost use Rattle.ipc_words.specs.Words.{words_of};

use crate::grammar::option_text;
use crate::lists::{number_list, two_numbers};
use crate::lives::life_call_of;
use crate::texts::text_of;
use ipc_call::{Call, Items, Kind};
use ipc_words::{
    first_two, four_words, number, number_32, one_word, signed_64, split_word, two_words,
};
use std::alloc::{AllocError, Global};

/// The call that the words make, of which the first names it; `None` where they make none. `AllocError` comes where
/// memory was refused.
#[tactic(auto, unfolding(crate::specs::CallWords::call_of))]
pub fn call_of(alloc: Global, words: &[u8]) -> Result<Option<Call>, AllocError>
    ensures { IfOk result (λ call. call ≡ call_words (words_of words.now)) }
{
    match split_word(words) {
        Some((word, words)) => call_named(alloc, word, words),
        None => Ok(None),
    }
}

/// The call of this name with these arguments.
#[tactic(auto, unfolding(crate::specs::CallWords::call_of))]
pub(crate) fn call_named(
    alloc: Global,
    word: &[u8],
    words: &[u8],
) -> Result<Option<Call>, AllocError>
    ensures { IfOk result (λ call. call ≡ call_words (word.now ∷ words_of words.now)) }
{
    if word == b"msgget".as_slice() {
        Ok(msgget_of(words))
    } else if word == b"msgsnd".as_slice() {
        msgsnd_of(alloc, words)
    } else if word == b"msgrcv".as_slice() {
        Ok(msgrcv_of(words))
    } else {
        control_of(alloc, word, words)
    }
}

// A call whose word stands below those of queues in the table.
#[inline(never)]
fn control_of(alloc: Global, word: &[u8], words: &[u8]) -> Result<Option<Call>, AllocError>
    ensures { IfOk result (λ call. call
        ≡ read_by (controls ++ process_calls ++ life_calls ++ shm_calls ++ sem_calls ++ value_calls) word.now (words_of words.now)) }
{
    if word == b"stat".as_slice() {
        Ok(object_of(words).map(|(kind, id)| Call::IpcStat { kind, id }))
    } else if word == b"set".as_slice() {
        Ok(set_of(words))
    } else if word == b"rmid".as_slice() {
        Ok(object_of(words).map(|(kind, id)| Call::IpcRmid { kind, id }))
    } else {
        process_call_of(alloc, word, words)
    }
}

fn process_call_of(alloc: Global, word: &[u8], words: &[u8]) -> Result<Option<Call>, AllocError>
    ensures { IfOk result (λ call. call
        ≡ read_by (process_calls ++ life_calls ++ shm_calls ++ sem_calls ++ value_calls) word.now (words_of words.now)) }
{
    if word == b"interrupt".as_slice() {
        Ok(interrupt_of(words))
    } else if word == b"setcreds".as_slice() {
        setcreds_of(alloc, words)
    } else if word == b"exit".as_slice() {
        Ok(exit_of(words))
    } else {
        life_call_of(alloc, word, words)
    }
}

#[tactic(auto, unfolding(crate::specs::Calls::msgsnd_of))]
#[inline(never)]
fn msgsnd_of(alloc: Global, words: &[u8]) -> Result<Option<Call>, AllocError>
    ensures { IfOk result (λ call. call ≡ msgsnd_line (words_of words.now)) }
{
    let Some((id, mtype, text, flags)) = four_words(words) else {
        return Ok(None);
    };
    msgsnd_words(alloc, id, mtype, text, flags)
}

fn msgsnd_words(
    alloc: Global,
    id: &[u8],
    mtype: &[u8],
    text: &[u8],
    flags: &[u8],
) -> Result<Option<Call>, AllocError>
    ensures { IfOk result (λ call. call ≡ msgsnd_parts id.now mtype.now text.now flags.now) }
{
    let Some(id) = number_32(id) else {
        return Ok(None);
    };
    let Some(mtype) = signed_64(mtype) else {
        return Ok(None);
    };
    let Some(flags) = number_32(flags) else {
        return Ok(None);
    };
    let Some(text) = text_of(alloc, text)? else {
        return Ok(None);
    };
    Ok(Some(Call::MsgSnd {
        id,
        mtype,
        text,
        flags,
    }))
}

#[tactic(auto, unfolding(crate::specs::Calls::msgrcv_of))]
#[inline(never)]
fn msgrcv_of(words: &[u8]) -> Option<Call>
    ensures { result ≡ msgrcv_line (words_of words.now) }
{
    let (id, size, msgtyp, flags) = four_words(words)?;
    msgrcv_words(id, size, msgtyp, flags)
}

fn msgrcv_words(id: &[u8], size: &[u8], msgtyp: &[u8], flags: &[u8]) -> Option<Call>
    ensures { result ≡ msgrcv_parts id.now size.now msgtyp.now flags.now }
{
    let id = number_32(id)?;
    let size = number(size, u64::MAX)?;
    let msgtyp = signed_64(msgtyp)?;
    let flags = number_32(flags)?;
    Some(Call::MsgRcv {
        id,
        size,
        msgtyp,
        flags,
    })
}

fn msgget_of(words: &[u8]) -> Option<Call>
    ensures { result ≡ msgget_words (words_of words.now) }
{
    let (key, flags) = two_words(words)?;
    let key = number_32(key)?;
    let flags = number_32(flags)?;
    Some(Call::MsgGet { key, flags })
}

fn object_of(words: &[u8]) -> Option<(Kind, u32)>
    ensures { result ≡ object_words (words_of words.now) }
{
    let (kind, id) = two_words(words)?;
    let kind = kind_named(kind)?;
    let id = number_32(id)?;
    Some((kind, id))
}

fn interrupt_of(words: &[u8]) -> Option<Call>
    ensures { result ≡ interrupt_words (words_of words.now) }
{
    let pid = number_32(one_word(words)?)?;
    Some(Call::Interrupt { pid })
}

fn setcreds_of(alloc: Global, words: &[u8]) -> Result<Option<Call>, AllocError>
    ensures { IfOk result (λ call. call ≡ setcreds_line (words_of words.now)) }
{
    let Some((euid, egid, options)) = first_two(words) else {
        return Ok(None);
    };
    let Some((euid, egid)) = two_numbers(euid, egid) else {
        return Ok(None);
    };
    let Some((groups, words)) = groups_option(alloc, options)? else {
        return Ok(None);
    };
    match split_word(words) {
        None => Ok(Some(Call::SetCreds { euid, egid, groups })),
        Some(_) => Ok(None),
    }
}

fn groups_option(
    alloc: Global,
    words: &[u8],
) -> Result<Option<(Option<Items<u32>>, &[u8])>, AllocError>
    ensures { IfOk result (λ groups. option_map (λ x. (x.0, words_of x.1.now)) groups ≡ groups_words (words_of words.now)) }
{
    let Some((text, rest)) = option_text(b"groups=", words) else {
        return Ok(Some((None, words)));
    };
    let Some(groups) = new_groups(alloc, text)? else {
        return Ok(None);
    };
    Ok(Some((Some(groups), rest)))
}

fn new_groups(alloc: Global, text: &[u8]) -> Result<Option<Items<u32>>, AllocError>
    ensures { IfOk result (λ groups. groups ≡ new_groups_text text.now) }
{
    if text == b"-".as_slice() {
        return Ok(Some(Items::new(Vec::new(alloc))));
    }
    let groups = number_list(alloc, text)?;
    Ok(groups.map(Items::new))
}

fn exit_of(words: &[u8]) -> Option<Call>
    ensures { result ≡ exit_words (words_of words.now) }
{
    match split_word(words) {
        None => Some(Call::Exit),
        Some(_) => None,
    }
}

#[tactic(auto, unfolding(crate::specs::Calls::set_of))]
fn set_of(words: &[u8]) -> Option<Call>
    ensures { result ≡ set_line (words_of words.now) }
{
    let (kind, words) = split_word(words)?;
    let (id, words) = split_word(words)?;
    let (uid, words) = split_word(words)?;
    let (gid, words) = split_word(words)?;
    let (mode, words) = split_word(words)?;
    set_words(kind, id, uid, gid, mode, words)
}

fn set_words(
    kind: &[u8],
    id: &[u8],
    uid: &[u8],
    gid: &[u8],
    mode: &[u8],
    rest: &[u8],
) -> Option<Call>
    ensures { result ≡ set_parts kind.now id.now uid.now gid.now mode.now (words_of rest.now) }
{
    let kind = kind_named(kind)?;
    let id = number_32(id)?;
    let uid = number_32(uid)?;
    let gid = number_32(gid)?;
    let mode = number_32(mode)?;
    let qbytes = qbytes_of(rest)?;
    Some(Call::IpcSet {
        kind,
        id,
        uid,
        gid,
        mode,
        qbytes,
    })
}

fn qbytes_of(words: &[u8]) -> Option<Option<u64>>
    ensures { result ≡ qbytes_words (words_of words.now) }
{
    if split_word(words).is_none() {
        return Some(None);
    }
    let qbytes = number(one_word(words)?, u64::MAX)?;
    Some(Some(qbytes))
}

/// The kind of object that the word names: `q` a queue, `s` a semaphore set, `m` a segment.
#[tactic(auto, unfolding(crate::specs::Calls::kind_named))]
pub fn kind_named(word: &[u8]) -> Option<Kind>
    ensures { result ≡ kind_word word.now }
{
    match word {
        b"q" => Some(Kind::Queue),
        b"s" => Some(Kind::Sems),
        b"m" => Some(Kind::Segment),
        _ => None,
    }
}
