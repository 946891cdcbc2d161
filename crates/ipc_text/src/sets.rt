// The calls on semaphore sets that words make.

ghost use Rattle.std.specs.Prelude.{◌≡◌, ◌++◌, IfOk};
ghost use Rattle.ipc_text.specs.CallWords.{read_by, sem_calls, value_calls};
ghost use Rattle.ipc_text.specs.Sets.{getall_of as getall_words, oper_flags as flags_fields, oper_of as oper_word, semaphore_of as semaphore_words};
ghost use Rattle.ipc_text.specs.Sets.{semget_of as semget_line, semget_words as semget_parts, semop_of as semop_words, semtimedop_of as semtimedop_words, setall_of as setall_words, setval_of as setval_line, setval_words as setval_parts};
ghost use Rattle.ipc_words.specs.Words.{fields_of, words_of};

use crate::lists::{Item, items_of, two_numbers};
use ipc_call::{Call, SemOper};
use ipc_words::{
    first_two, number, number_16, number_32, one_word, signed_16, signed_32, split_field,
    split_word, three_words, two_words,
};
use std::alloc::{AllocError, Global};

/// The call on a semaphore set that this word and those behind it make; `None` where they make none.
/// `AllocError` comes only where a growth was refused.
pub(crate) fn set_call_of(
    alloc: Global,
    word: &[u8],
    words: &[u8],
) -> Result<Option<Call>, AllocError>
    ensures { IfOk result (λ call. call
        ≡ read_by (sem_calls ++ value_calls) word.now (words_of words.now)) }
{
    if word == b"semget".as_slice() {
        Ok(semget_of(words))
    } else if word == b"semop".as_slice() {
        semop_of(alloc, words)
    } else if word == b"semtimedop".as_slice() {
        semtimedop_of(alloc, words)
    } else {
        value_call_of(alloc, word, words)
    }
}

// A call that sets or reports values (semctl(2)).
fn value_call_of(alloc: Global, word: &[u8], words: &[u8]) -> Result<Option<Call>, AllocError>
    ensures { IfOk result (λ call. call ≡ read_by value_calls word.now (words_of words.now)) }
{
    if word == b"setval".as_slice() {
        Ok(setval_of(words))
    } else if word == b"setall".as_slice() {
        setall_of(alloc, words)
    } else if word == b"getall".as_slice() {
        Ok(getall_of(words))
    } else if word == b"getval".as_slice() {
        Ok(semaphore_of(words).map(|(id, num)| Call::GetVal { id, num }))
    } else if word == b"getpid".as_slice() {
        Ok(semaphore_of(words).map(|(id, num)| Call::GetPid { id, num }))
    } else if word == b"getncnt".as_slice() {
        Ok(semaphore_of(words).map(|(id, num)| Call::GetNcnt { id, num }))
    } else if word == b"getzcnt".as_slice() {
        Ok(semaphore_of(words).map(|(id, num)| Call::GetZcnt { id, num }))
    } else {
        Ok(None)
    }
}

fn semget_of(words: &[u8]) -> Option<Call>
    ensures { result ≡ semget_line (words_of words.now) }
{
    let (key, nsems, flags) = three_words(words)?;
    semget_words(key, nsems, flags)
}

fn semget_words(key: &[u8], nsems: &[u8], flags: &[u8]) -> Option<Call>
    ensures { result ≡ semget_parts key.now nsems.now flags.now }
{
    let key = number_32(key)?;
    let nsems = number_32(nsems)?;
    let flags = number_32(flags)?;
    Some(Call::SemGet { key, nsems, flags })
}

fn setval_of(words: &[u8]) -> Option<Call>
    ensures { result ≡ setval_line (words_of words.now) }
{
    let (id, num, value) = three_words(words)?;
    setval_words(id, num, value)
}

fn setval_words(id: &[u8], num: &[u8], value: &[u8]) -> Option<Call>
    ensures { result ≡ setval_parts id.now num.now value.now }
{
    let id = number_32(id)?;
    let num = number_32(num)?;
    let value = signed_32(value)?;
    Some(Call::SetVal { id, num, value })
}

fn setall_of(alloc: Global, words: &[u8]) -> Result<Option<Call>, AllocError>
    ensures { IfOk result (λ call. call ≡ setall_words (words_of words.now)) }
{
    let Some((id, values)) = split_word(words) else {
        return Ok(None);
    };
    let Some(id) = number_32(id) else {
        return Ok(None);
    };
    let Some(values) = items_of(alloc, values)? else {
        return Ok(None);
    };
    Ok(Some(Call::SetAll { id, values }))
}

fn semop_of(alloc: Global, words: &[u8]) -> Result<Option<Call>, AllocError>
    ensures { IfOk result (λ call. call ≡ semop_words (words_of words.now)) }
{
    let Some((id, ops)) = split_word(words) else {
        return Ok(None);
    };
    let Some(id) = number_32(id) else {
        return Ok(None);
    };
    let Some(ops) = items_of(alloc, ops)? else {
        return Ok(None);
    };
    Ok(Some(Call::SemOp { id, ops }))
}

fn semtimedop_of(alloc: Global, words: &[u8]) -> Result<Option<Call>, AllocError>
    ensures { IfOk result (λ call. call ≡ semtimedop_words (words_of words.now)) }
{
    let Some((id, timeout, ops)) = first_two(words) else {
        return Ok(None);
    };
    let Some(id) = number_32(id) else {
        return Ok(None);
    };
    let Some(timeout) = number(timeout, u64::MAX) else {
        return Ok(None);
    };
    let Some(ops) = items_of(alloc, ops)? else {
        return Ok(None);
    };
    Ok(Some(Call::SemTimedOp { id, ops, timeout }))
}

impl Item for SemOper {
    ghost item_of = { oper_word };

    fn from_word(word: &[u8]) -> Option<SemOper> {
        let (num, rest) = split_field(word, b':');
        let (op, rest) = split_field(rest?, b':');
        let num = number_16(num)?;
        let op = signed_16(op)?;
        let flags = match rest {
            None => 0,
            Some(flags) => flags_of(flags)?,
        };
        Some(SemOper { num, op, flags })
    }
}

// The flags of an operation, behind its second colon.
fn flags_of(text: &[u8]) -> Option<u16>
    ensures { result ≡ flags_fields (fields_of 58 text.now) }
{
    match split_field(text, b':') {
        (flags, None) => number_16(flags),
        (_, Some(_)) => None,
    }
}

fn getall_of(words: &[u8]) -> Option<Call>
    ensures { result ≡ getall_words (words_of words.now) }
{
    let id = number_32(one_word(words)?)?;
    Some(Call::GetAll { id })
}

fn semaphore_of(words: &[u8]) -> Option<(u32, u32)>
    ensures { result ≡ semaphore_words (words_of words.now) }
{
    let (id, num) = two_words(words)?;
    two_numbers(id, num)
}
