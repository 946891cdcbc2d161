//! Lines of the files of /proc, and why one can't be read.

use crate::fields::Field;
use ipc_words::split_field;
use thiserror::Error;

/// Why a line can't be read.
#[derive(Clone, Copy, Debug, Error)]
pub enum LineError {
    /// The file doesn't begin with the names of its columns.
    #[error("'key' is wanted, the name of the first column")]
    NoHead,
    /// The line ends before this field.
    #[error("the field {0} is missing")]
    Missing(Field),
    /// The field is no number, or one that is too large.
    #[error("the field {0} is no number in its range")]
    BadNumber(Field),
    /// A process has more supplementary groups than credentials hold here, 32.
    #[error("there are more than 32 groups")]
    ManyGroups,
    /// The file ends without this line.
    #[error("the file ends without a line {0}")]
    NoLine(Field),
    /// An allocation failed.
    #[error("no memory")]
    NoMemory,
}

/// A line that can't be read.
#[derive(Clone, Copy, Debug, Error)]
#[error("line {number}: {error}")]
pub struct BadLine {
    /// Its number, from 1.
    pub number: u64,
    /// Why it can't be read.
    pub error: LineError,
}

/// A line of a file, by its number from 1, or a part of it.
#[derive(Clone, Copy, Debug)]
pub(crate) struct Line<'a> {
    pub(crate) number: u64,
    pub(crate) text: &'a [u8],
}

impl<'a> Line<'a> {
    /// That it can't be read.
    pub(crate) fn bad(self, error: LineError) -> BadLine {
        let number = self.number;
        BadLine { number, error }
    }
}

/// A text without the line feed at its end.
pub(crate) fn unended(text: &[u8]) -> &[u8] {
    text.strip_suffix(b"\n").unwrap_or(text)
}

/// What stands behind the name and the colon of the first line `NAME: ..`.
pub(crate) fn line_named<'a>(text: &'a [u8], name: Field) -> Result<Line<'a>, BadLine> {
    let mut last = 1;
    let lines = unended(text).split(|byte| *byte == b'\n');
    for (number, line) in (1..u64::MAX).zip(lines) {
        if let Some(text) = behind_name(line, name.name()) {
            return Ok(Line { number, text });
        }
        last = number;
    }
    Err(BadLine {
        number: last,
        error: LineError::NoLine(name),
    })
}

fn behind_name<'a>(line: &'a [u8], name: &str) -> Option<&'a [u8]> {
    match split_field(line, b':') {
        (field, rest) if field == name.as_bytes() => rest,
        _ => None,
    }
}
