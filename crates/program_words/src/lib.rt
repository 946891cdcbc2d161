//! What a program is asked for by the words that it was called with, and what it reads. It is the project's own.
#![tactic(auto)]

use std::alloc::{AllocError, Global};
use std::io::{ErrorKind, Read};
use std::rt::{Env, Files};
use std::{env, fs, io};

/// What a program may be asked for.
pub trait FromWords: Sized {
    /// What words ask for, of which the first is the program's name; `None` where the program doesn't take them. The error comes
    /// only where an allocation fails.
    fn from_words(alloc: Global, words: &[&str]) -> Result<Option<Self>, AllocError>;
}

/// What the words that the program was called with ask for; `None` where it doesn't take them, or one of them is no text.
pub fn asked<R: Env + AllocGlobal, A: FromWords>(rt: &R) -> Result<Option<A>, AllocError> {
    let Some(texts) = called_with(rt)? else {
        return Ok(None);
    };
    let words: Vec<&str> = texts.iter().map(|text| text.as_str()).collect(rt.alloc())?;
    A::from_words(rt.alloc(), words.as_slice())
}

/// The words that the program was called with; `None` where one of them is no text.
fn called_with<R: Env + AllocGlobal>(rt: &R) -> Result<Option<Vec<String>>, AllocError> {
    match env::args(rt) {
        Ok(given) => Ok(Some(given.collect(rt.alloc())?)),
        Err(error) if error.kind() == ErrorKind::OutOfMemory => Err(AllocError),
        Err(_) => Ok(None),
    }
}

/// All bytes of a file, or of standard input where none is named.
pub fn read_whole<R: Files + Input + AllocGlobal>(
    rt: &R,
    file: &Option<String>,
) -> io::Result<Vec<u8>> {
    match file {
        Some(path) => fs::read(rt, path.as_str()),
        None => {
            let mut text = Vec::new(rt.alloc());
            rt.reader().read_to_end(&mut text)?;
            Ok(text)
        }
    }
}
