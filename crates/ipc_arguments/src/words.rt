// The words of a line, and how they are shown.

use ipc_call::Memory;
use std::alloc::Global;
use std::fmt;
use std::fmt::Write;

/// `Memory` where an allocation fails; a part of the text may then be appended.
pub type Told = Result<(), Memory>;

/// How many bytes of a word are shown.
const SHOWN: usize = 40;

/// A word of a line.
#[derive(Clone, Copy, Debug)]
pub struct Word<'a> {
    pub bytes: &'a [u8],
    /// Where its first byte stands in the line, from 1.
    pub column: usize,
}

impl Word<'_> {
    /// Appends where it stands.
    pub fn push_column(self, out: &mut String) -> Told {
        let column = self.column;
        write!(out, "column {column}: ")
    }
}

/// The words of a text, in their order.
pub fn words_in(alloc: Global, text: &[u8]) -> Result<Vec<Word<'_>>, Memory> {
    let mut words = Vec::new(alloc);
    let mut column = 1;
    for bytes in text.split(|byte| matches!(*byte, b' ' | b'\t')) {
        if !bytes.is_empty() {
            words.push(Word { bytes, column })?;
        }
        column = bytes.len().saturating_add(column).saturating_add(1);
    }
    Ok(words)
}

/// A word in quotes, of which the first bytes are shown.
#[derive(Clone, Copy, Debug)]
pub struct Quoted<'a>(pub &'a [u8]);

impl fmt::Display for Quoted<'_> {
    fn fmt<W: fmt::Write>(&self, f: &mut fmt::Formatter<W>) -> fmt::Result {
        let word = Shown(self.0);
        write!(f, "'{word}'")
    }
}

/// The first bytes of a word. Those that don't print stand as `?`.
#[derive(Clone, Copy, Debug)]
pub struct Shown<'a>(pub &'a [u8]);

impl fmt::Display for Shown<'_> {
    fn fmt<W: fmt::Write>(&self, f: &mut fmt::Formatter<W>) -> fmt::Result {
        for byte in self.0.iter().take(SHOWN) {
            f.write_char(if byte.is_ascii_graphic() {
                char::from(*byte)
            } else {
                '?'
            })?;
        }
        if self.0.len() > SHOWN {
            f.write_str("..")?;
        }
        Ok(())
    }
}

/// A number as the language writes it in octal.
#[derive(Clone, Copy, Debug)]
pub(crate) struct Octal(pub(crate) u32);

impl fmt::Display for Octal {
    fn fmt<W: fmt::Write>(&self, f: &mut fmt::Formatter<W>) -> fmt::Result {
        let number = self.0;
        if number == 0 {
            return f.write_str("0");
        }
        write!(f, "0{number:o}")
    }
}
