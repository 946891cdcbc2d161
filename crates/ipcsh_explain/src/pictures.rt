// The file of a picture: it is written where that loses nothing else.

use crate::Failure;
use run_picture::{STYLE, draw};
use run_watch::watch;
use std::fs;
use std::io::{Error, ErrorKind, Read};
use std::rt::Files;

/// How the text of a picture begins.
const BEGIN: [u8; 4] = *b"<svg";

/// Refuses a file that holds something else than a picture. One that is missing or empty may be written, and so may what is no file,
/// as a terminal or a pipe: to look into it would wait.
pub(crate) fn refuse_other<R: Files + AllocGlobal>(rt: &R, path: &str) -> Result<(), Failure> {
    match may_be_written(rt, path) {
        Ok(true) => Ok(()),
        Ok(false) => Err(Failure::NoPicture(String::from_str(rt.alloc(), path)?)),
        Err(error) => Err(Failure::Picture(String::from_str(rt.alloc(), path)?, error)),
    }
}

/// Whether to write the picture to this path loses nothing else. What is wrong with the path itself is told where it is written.
fn may_be_written<R: Files>(rt: &R, path: &str) -> Result<bool, Error> {
    match fs::metadata(rt, path) {
        Ok(found) if found.is_file() && found.len() > 0 => begins_as_picture(rt, path),
        _ => Ok(true),
    }
}

/// Whether the file begins as a picture does.
fn begins_as_picture<R: Files>(rt: &R, path: &str) -> Result<bool, Error> {
    let mut begin = [0u8; 4];
    match fs::open(rt, path)?.read_exact(&mut begin) {
        Ok(()) => Ok(begin == BEGIN),
        Err(error) if error.kind() == ErrorKind::UnexpectedEof => Ok(false),
        Err(error) => Err(error),
    }
}

/// Writes the picture of a script's run to a file.
pub(crate) fn write_picture<R: Files + AllocGlobal>(
    rt: &R,
    script: &[u8],
    path: &str,
) -> Result<(), Failure> {
    let run = watch(rt.alloc(), script)?;
    let mut picture = String::new(rt.alloc());
    draw(&mut picture, STYLE, &run)?;
    match fs::write(rt, path, picture.as_bytes()) {
        Ok(()) => Ok(()),
        Err(error) => Err(Failure::Picture(String::from_str(rt.alloc(), path)?, error)),
    }
}
