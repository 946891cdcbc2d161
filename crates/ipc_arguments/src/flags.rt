// Flags and modes: their names, and numbers that lack their leading 0.

use crate::arguments::Argument;
use crate::words::{Octal, Quoted, Told, Word};
use ipc_call::{Call, Memory, SemOper};
use ipc_text::Part;
use ipc_words::{number_32, numeral, split_field};
use std::fmt::Write;

/// The permission bits of a mode.
const MODE_BITS: u32 = 0o777;

/// The number of a flag of this name.
fn flag_named(word: &[u8]) -> Option<u32> {
    match word {
        b"IPC_PRIVATE" => Some(0),
        b"IPC_CREAT" => Some(0o1000),
        b"IPC_EXCL" => Some(0o2000),
        b"IPC_NOWAIT" => Some(0o4000),
        b"MSG_NOERROR" | b"SEM_UNDO" | b"SHM_RDONLY" => Some(0o10000),
        b"MSG_EXCEPT" => Some(0o20000),
        b"S_IRUSR" => Some(0o400),
        b"S_IWUSR" => Some(0o200),
        b"S_IRGRP" => Some(0o40),
        b"S_IWGRP" => Some(0o20),
        b"S_IROTH" => Some(0o4),
        b"S_IWOTH" => Some(0o2),
        _ => None,
    }
}

/// The flags that names and numbers write, with `|`, `+` or commas between them, at least one of them a name.
pub(crate) fn named_flags(word: &[u8]) -> Option<u32> {
    let mut flags = 0;
    let mut has_name = false;
    for field in word.split(|byte| matches!(*byte, b'|' | b'+' | b',')) {
        let named = flag_named(field);
        has_name = has_name || named.is_some();
        flags |= named.or(meant_octal(field)).or(number_32(field))?;
    }
    has_name.then_some(flags)
}

/// The number that three to five octal digits without a leading 0 write in octal.
fn meant_octal(word: &[u8]) -> Option<u32> {
    if !(3..=5).contains(&word.len()) || word.starts_with(b"0") {
        return None;
    }
    let number = numeral(8, word, u64::from(u32::MAX))?;
    Some(number as u32)
}

/// Whether decimal digits of the number, three to five of them, could be meant to be octal.
fn is_suspect(flags: u32) -> bool {
    let digit = |unit: u32| flags / unit % 10 < 8;
    (100..100_000).contains(&flags)
        && digit(1)
        && digit(10)
        && digit(100)
        && digit(1000)
        && digit(10_000)
}

/// Whether a line that makes these calls may have a mode or flags that lack their leading 0.
pub fn has_suspects(parts: &[Part]) -> bool {
    match parts {
        [Part::Plain(call)] => has_suspect(call),
        _ => false,
    }
}

fn has_suspect(call: &Call) -> bool {
    match call {
        Call::MsgGet { flags, .. }
        | Call::MsgSnd { flags, .. }
        | Call::MsgRcv { flags, .. }
        | Call::SemGet { flags, .. }
        | Call::ShmGet { flags, .. }
        | Call::ShmAt { flags, .. } => is_suspect(*flags),
        Call::IpcSet { mode, .. } => is_suspect(*mode),
        Call::SemOp { ops, .. } | Call::SemTimedOp { ops, .. } => {
            let has_suspect = |op: &SemOper| is_suspect(u32::from(op.flags));
            ops.as_slice().iter().any(has_suspect)
        }
        _ => false,
    }
}

/// The word that has the flags, and which they are, where an argument has some.
fn flags_in(argument: Argument, word: &[u8]) -> Option<(Argument, &[u8])> {
    match argument {
        Argument::Op => {
            let (_, rest) = split_field(word, b':');
            let (_, flags) = split_field(rest?, b':');
            Some((Argument::OpFlags, flags?))
        }
        _ if argument.has_flags() => Some((argument, word)),
        _ => None,
    }
}

/// Appends a warning where the word of an argument has flags or a mode that lack their leading 0.
pub fn warn_of_decimal(out: &mut String, number: u64, argument: Argument, word: Word<'_>) -> Told {
    let column = word.column;
    let Some((argument, word)) = flags_in(argument, word.bytes) else {
        return Ok(());
    };
    let (Some(octal), Some(flags)) = (meant_octal(word), number_32(word)) else {
        return Ok(());
    };
    let (name, shown, octal, flags_octal) = (
        argument.name(),
        Quoted(word),
        Octal(octal),
        Octal(flags),
    );
    write!(
        out,
        "ipcsh: line {number}: column {column}: warning: {name} {shown} is decimal, {flags_octal} in octal"
    )?;
    if argument == Argument::GetFlags {
        push_meaning(out, flags)?;
    }
    write!(out, "; did you mean {octal}?\n")
}

/// Appends what flags of a get say.
fn push_meaning(out: &mut String, flags: u32) -> Told {
    let mode = Octal(flags & MODE_BITS);
    write!(out, " (mode {mode}")?;
    if flags & 0o1000 != 0 {
        out.push_str(", IPC_CREAT")?;
    }
    if flags & 0o2000 != 0 {
        out.push_str(", IPC_EXCL")?;
    }
    out.push(')')
}
