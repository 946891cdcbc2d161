// Names of which one text was told, and whose later lines are only counted.

use ipc_arguments::{Quoted, Told};
use std::alloc::Global;
use std::fmt::Write;

/// How many such names are kept.
const NAMES_MAX: usize = 64;

/// Why the lines of a name are bad.
#[derive(Clone, Copy, Debug, PartialEq, Eq)]
pub(crate) enum Cause {
    /// No client has the name.
    NoClient,
    /// Its client line is bad, the one of this number.
    BadLine(u64),
}

#[derive(Debug, Drop)]
struct Name {
    name: Vec<u8>,
    cause: Cause,
    /// How many of its lines have no text.
    silent: u64,
}

/// The names that no client has.
#[derive(Debug, Drop)]
pub(crate) struct LostNames {
    names: Vec<Name>,
}

impl LostNames {
    pub(crate) fn new(alloc: Global) -> LostNames {
        LostNames {
            names: Vec::new(alloc),
        }
    }

    /// Counts a line of this name, where the name is known. Whether it is.
    pub(crate) fn count(&mut self, word: &[u8]) -> bool {
        for lost in self.names.iter_mut() {
            if lost.name.as_slice() == word {
                lost.silent = lost.silent.saturating_add(1);
                return true;
            }
        }
        false
    }

    /// Keeps a name.
    pub(crate) fn add(&mut self, word: &[u8], cause: Cause) -> Told {
        let is_known = self.names.iter().any(|lost| lost.name.as_slice() == word);
        if is_known || self.names.len() >= NAMES_MAX {
            return Ok(());
        }
        let alloc = *self.names.allocator();
        let name = Vec::from_slice(alloc, word)?;
        self.names.push(Name {
            name,
            cause,
            silent: 0,
        })?;
        Ok(())
    }

    /// Appends how many lines have no text, a line for each name.
    pub(crate) fn tell(&self, out: &mut String) -> Told {
        for lost in self.names.iter() {
            if lost.silent > 0 {
                lost.tell(out)?;
            }
        }
        Ok(())
    }
}

impl Name {
    fn tell(&self, out: &mut String) -> Told {
        let (silent, name) = (self.silent, Quoted(self.name.as_slice()));
        match self.cause {
            Cause::NoClient => {
                write!(
                    out,
                    "ipcsh: {name} is no client; its further lines without a hint: {silent}\n"
                )
            }
            Cause::BadLine(line) => write!(
                out,
                "ipcsh: {name} is no client, since line {line} is bad; its lines without a hint: {silent}\n"
            ),
        }
    }
}
