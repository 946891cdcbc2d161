// The calls on shared memory segments that words make.

ghost use Rattle.std.specs.Prelude.{◌≡◌, ◌++◌, IfOk};
ghost use Rattle.ipc_text.specs.CallWords.{read_by, shm_calls, sem_calls, value_calls};
ghost use Rattle.ipc_text.specs.Segments.{shmat_of as shmat_words, shmdt_of as shmdt_line};
ghost use Rattle.ipc_text.specs.Segments.{shmget_of as shmget_line, shmget_words as shmget_parts, shmread_of as shmread_line, shmread_words as shmread_parts, shmwrite_of as shmwrite_line, shmwrite_words as shmwrite_parts};
ghost use Rattle.ipc_words.specs.Words.{words_of};

use crate::sets::set_call_of;
use crate::texts::text_of;
use ipc_call::Call;
use ipc_words::{number, number_32, one_word, three_words, two_words};
use std::alloc::{AllocError, Global};

/// The call on a shared memory segment that this word and those behind it make, or that on a semaphore set; `None` where they
/// make none. `AllocError` comes where memory was refused.
pub(crate) fn segment_call_of(
    alloc: Global,
    word: &[u8],
    words: &[u8],
) -> Result<Option<Call>, AllocError>
    ensures { IfOk result (λ call. call
        ≡ read_by (shm_calls ++ sem_calls ++ value_calls) word.now (words_of words.now)) }
{
    if word == b"shmget".as_slice() {
        Ok(shmget_of(words))
    } else if word == b"shmat".as_slice() {
        Ok(shmat_of(words))
    } else if word == b"shmdt".as_slice() {
        Ok(shmdt_of(words))
    } else if word == b"shmread".as_slice() {
        Ok(shmread_of(words))
    } else if word == b"shmwrite".as_slice() {
        shmwrite_of(alloc, words)
    } else {
        set_call_of(alloc, word, words)
    }
}

fn shmget_of(words: &[u8]) -> Option<Call>
    ensures { result ≡ shmget_line (words_of words.now) }
{
    let (key, size, flags) = three_words(words)?;
    shmget_words(key, size, flags)
}

fn shmget_words(key: &[u8], size: &[u8], flags: &[u8]) -> Option<Call>
    ensures { result ≡ shmget_parts key.now size.now flags.now }
{
    let key = number_32(key)?;
    let size = number(size, u64::MAX)?;
    let flags = number_32(flags)?;
    Some(Call::ShmGet { key, size, flags })
}

fn shmat_of(words: &[u8]) -> Option<Call>
    ensures { result ≡ shmat_words (words_of words.now) }
{
    let (id, flags) = two_words(words)?;
    let id = number_32(id)?;
    let flags = number_32(flags)?;
    Some(Call::ShmAt { id, flags })
}

fn shmdt_of(words: &[u8]) -> Option<Call>
    ensures { result ≡ shmdt_line (words_of words.now) }
{
    let att = number_32(one_word(words)?)?;
    Some(Call::ShmDt { att })
}

fn shmread_of(words: &[u8]) -> Option<Call>
    ensures { result ≡ shmread_line (words_of words.now) }
{
    let (att, offset, len) = three_words(words)?;
    shmread_words(att, offset, len)
}

fn shmread_words(att: &[u8], offset: &[u8], len: &[u8]) -> Option<Call>
    ensures { result ≡ shmread_parts att.now offset.now len.now }
{
    let att = number_32(att)?;
    let offset = number(offset, u64::MAX)?;
    let len = number(len, u64::MAX)?;
    Some(Call::ShmRead { att, offset, len })
}

fn shmwrite_of(alloc: Global, words: &[u8]) -> Result<Option<Call>, AllocError>
    ensures { IfOk result (λ call. call ≡ shmwrite_line (words_of words.now)) }
{
    let Some((att, offset, text)) = three_words(words) else {
        return Ok(None);
    };
    shmwrite_words(alloc, att, offset, text)
}

fn shmwrite_words(
    alloc: Global,
    att: &[u8],
    offset: &[u8],
    text: &[u8],
) -> Result<Option<Call>, AllocError>
    ensures { IfOk result (λ call. call ≡ shmwrite_parts att.now offset.now text.now) }
{
    let Some(att) = number_32(att) else {
        return Ok(None);
    };
    let Some(offset) = number(offset, u64::MAX) else {
        return Ok(None);
    };
    let Some(bytes) = text_of(alloc, text)? else {
        return Ok(None);
    };
    Ok(Some(Call::ShmWrite { att, offset, bytes }))
}
