//! The fields of a line, which blanks and tabs part.

ghost use Rattle.std.specs.Prelude.{◌≤◌, IfOk};

use crate::lines::LineError;
use ipc_words::{numeral, split_word};
use std::fmt;

/// A field, by its name in the file (proc(5)).
#[derive(Clone, Copy, Debug, PartialEq, Eq)]
pub enum Field {
    Key,
    Msqid,
    Semid,
    Shmid,
    Perms,
    Lspid,
    Lrpid,
    Cpid,
    Lpid,
    Nattch,
    Uid,
    Gid,
    Cuid,
    Cgid,
    /// Of a status: the name of the command.
    Name,
    /// Its users.
    Users,
    /// Its groups, but for the supplementary ones.
    OwnGroups,
    /// Its supplementary groups.
    Groups,
    /// Its effective capabilities.
    CapEff,
}

impl Field {
    /// Its name in the file.
    pub fn name(self) -> &'static str {
        match self {
            Field::Key => "key",
            Field::Msqid => "msqid",
            Field::Semid => "semid",
            Field::Shmid => "shmid",
            Field::Perms => "perms",
            Field::Lspid => "lspid",
            Field::Lrpid => "lrpid",
            Field::Cpid => "cpid",
            Field::Lpid => "lpid",
            Field::Nattch => "nattch",
            Field::Uid => "uid",
            Field::Gid => "gid",
            Field::Cuid => "cuid",
            Field::Cgid => "cgid",
            Field::Name => "Name",
            Field::Users => "Uid",
            Field::OwnGroups => "Gid",
            Field::Groups => "Groups",
            Field::CapEff => "CapEff",
        }
    }
}

impl fmt::Display for Field {
    fn fmt<W: fmt::Write>(&self, f: &mut fmt::Formatter<W>) -> fmt::Result {
        f.pad(self.name())
    }
}

/// What follows as many fields.
pub(crate) fn behind(text: &[u8], count: usize) -> &[u8] {
    let mut rest = text;
    for _ in 0..count {
        match split_word(rest) {
            Some((_, others)) => rest = others,
            None => return rest,
        }
    }
    rest
}

/// The field at this place, a number of this base and at most this one.
pub(crate) fn number_at(
    text: &[u8],
    place: usize,
    field: Field,
    base: u32,
    most: u64,
) -> Result<u64, LineError>
    requires lower_bound { 2 ≤ base }
    requires upper_bound { base ≤ 36 }
    ensures { IfOk result (λ value. value ≤ most) }
{
    let Some((word, _)) = split_word(behind(text, place)) else {
        return Err(LineError::Missing(field));
    };
    match numeral(base, word, most) {
        Some(value) => Ok(value),
        None => Err(LineError::BadNumber(field)),
    }
}

/// The field at this place, a decimal number of 32 bits.
pub(crate) fn number_32_at(text: &[u8], place: usize, field: Field) -> Result<u32, LineError> {
    let value = number_at(text, place, field, 10, u64::from(u32::MAX))?;
    Ok(value as u32)
}
