//! The files of /proc/sysvipc (sysvipc(7), proc(5)).

use crate::fields::{Field, behind, number_32_at, number_at};
use crate::lines::{BadLine, LineError, unended};
use crate::objects::{Object, Use};
use ipc_call::{Kind, Mode, Perm};
use ipc_words::{signed_32, split_word};
use std::alloc::AllocError;

/// The file of /proc/sysvipc that has the objects of a kind.
pub fn file_of(kind: Kind) -> &'static str {
    match kind {
        Kind::Queue => "msg",
        Kind::Sems => "sem",
        Kind::Segment => "shm",
    }
}

/// Reads the text of such a file: appends its objects in their order, and the lines that can't be read. The error comes only
/// where an allocation fails.
pub fn read_objects(
    kind: Kind,
    text: &[u8],
    objects: &mut Vec<Object>,
    bad: &mut Vec<BadLine>,
) -> Result<(), AllocError> {
    let lines = unended(text).split(|byte| *byte == b'\n');
    for (number, line) in (1..u64::MAX).zip(lines) {
        match read_line(kind, number, line) {
            Ok(None) => {}
            Ok(Some(object)) => objects.push(object)?,
            Err(error) => bad.push(BadLine { number, error })?,
        }
    }
    Ok(())
}

/// The object of a line; the first names the columns, and has none.
fn read_line(kind: Kind, number: u64, line: &[u8]) -> Result<Option<Object>, LineError> {
    if number > 1 {
        return Ok(Some(object_of(kind, line)?));
    }
    match split_word(line) {
        Some((b"key", _)) => Ok(None),
        _ => Err(LineError::NoHead),
    }
}

/// What follows the creator's group isn't looked at.
fn object_of(kind: Kind, line: &[u8]) -> Result<Object, LineError> {
    match kind {
        Kind::Queue => queue_of(line),
        Kind::Sems => set_of(line),
        Kind::Segment => segment_of(line),
    }
}

/// `key msqid perms cbytes qnum lspid lrpid uid gid cuid cgid ..`
fn queue_of(line: &[u8]) -> Result<Object, LineError> {
    let id = number_32_at(line, 1, Field::Msqid)?;
    let lspid = number_32_at(line, 5, Field::Lspid)?;
    let lrpid = number_32_at(line, 6, Field::Lrpid)?;
    let perm = perm_of(line, behind(line, 7))?;
    let used = Use::Queue { lspid, lrpid };
    Ok(Object { id, perm, used })
}

/// `key semid perms nsems uid gid cuid cgid ..`
fn set_of(line: &[u8]) -> Result<Object, LineError> {
    let id = number_32_at(line, 1, Field::Semid)?;
    let perm = perm_of(line, behind(line, 4))?;
    let used = Use::Sems;
    Ok(Object { id, perm, used })
}

/// `key shmid perms size cpid lpid nattch uid gid cuid cgid ..`
fn segment_of(line: &[u8]) -> Result<Object, LineError> {
    let id = number_32_at(line, 1, Field::Shmid)?;
    let cpid = number_32_at(line, 4, Field::Cpid)?;
    let lpid = number_32_at(line, 5, Field::Lpid)?;
    let nattch = number_at(line, 6, Field::Nattch, 10, u64::MAX)?;
    let perm = perm_of(line, behind(line, 7))?;
    let used = Use::Segment { cpid, lpid, nattch };
    Ok(Object { id, perm, used })
}

/// The permissions: key and mode stand at the head of the line, owner and creator before `owners` ends.
fn perm_of(line: &[u8], owners: &[u8]) -> Result<Perm, LineError> {
    Ok(Perm {
        key: key_of(line)?,
        uid: number_32_at(owners, 0, Field::Uid)?,
        gid: number_32_at(owners, 1, Field::Gid)?,
        cuid: number_32_at(owners, 2, Field::Cuid)?,
        cgid: number_32_at(owners, 3, Field::Cgid)?,
        mode: mode_of(line)?,
    })
}

/// The key, which the file shows with a sign.
fn key_of(line: &[u8]) -> Result<u32, LineError> {
    let Some((word, _)) = split_word(line) else {
        return Err(LineError::Missing(Field::Key));
    };
    match signed_32(word) {
        Some(key) => Ok(key.cast_unsigned()),
        None => Err(LineError::BadNumber(Field::Key)),
    }
}

/// The mode in octal. Of a segment it has SHM_DEST and SHM_LOCKED too, which are no permissions (shmctl(2)).
fn mode_of(line: &[u8]) -> Result<Mode, LineError> {
    let bits = number_at(line, 2, Field::Perms, 8, u64::from(u32::MAX))?;
    Ok(Mode::from_low_bits(bits as u32))
}
