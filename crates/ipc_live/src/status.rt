//! The file /proc/PID/status (proc(5)).

ghost use Rattle.std.specs.Prelude.{◌≤◌, IfOk, vec_len};

use crate::fields::{Field, number_32_at, number_at};
use crate::lines::{BadLine, Line, LineError, line_named};
use crate::processes::Process;
use bitflags::Flags;
use ipc_creds::{Caps, Creds, GROUPS_MAX};
use ipc_words::{numeral, split_word};
use std::alloc::{AllocError, Global};

/// The capabilities that are known here, by their bits (capabilities(7), linux/capability.h).
static CAPABILITIES: [(u64, Caps); 5] = [
    (1 << 6, Caps::SETGID),
    (1 << 7, Caps::SETUID),
    (1 << 15, Caps::IPC_OWNER),
    (1 << 21, Caps::SYS_ADMIN),
    (1 << 24, Caps::SYS_RESOURCE),
];

/// The process of this number, by the text of its status.
pub fn process_of(alloc: Global, pid: u32, text: &[u8]) -> Result<Process, BadLine> {
    let euid = effective_user(line_named(text, Field::Users)?)?;
    let egid = file_system_group(line_named(text, Field::OwnGroups)?)?;
    let caps = caps_of(line_named(text, Field::CapEff)?)?;
    let (groups, name) = (
        line_named(text, Field::Groups)?,
        line_named(text, Field::Name)?,
    );
    let groups = groups_of(alloc, groups)?;
    let name = name_of(alloc, name)?;
    let creds = Creds::new(euid, egid, groups.as_slice(), caps);
    Ok(Process { pid, name, creds })
}

/// The second of four users.
fn effective_user(line: Line<'_>) -> Result<u32, BadLine> {
    match number_32_at(line.text, 1, Field::Users) {
        Ok(euid) => Ok(euid),
        Err(error) => Err(line.bad(error)),
    }
}

/// The last of four groups.
fn file_system_group(line: Line<'_>) -> Result<u32, BadLine> {
    match number_32_at(line.text, 3, Field::OwnGroups) {
        Ok(group) => Ok(group),
        Err(error) => Err(line.bad(error)),
    }
}

/// The capabilities that are known here.
fn caps_of(line: Line<'_>) -> Result<Caps, BadLine> {
    match number_at(line.text, 0, Field::CapEff, 16, u64::MAX) {
        Ok(set) => Ok(known_of(set)),
        Err(error) => Err(line.bad(error)),
    }
}

fn known_of(set: u64) -> Caps {
    let mut caps = Caps::empty();
    for (bit, capability) in &CAPABILITIES {
        if set & *bit != 0 {
            caps.insert(*capability);
        }
    }
    caps
}

/// The supplementary groups.
fn groups_of(alloc: Global, line: Line<'_>) -> Result<Vec<u32>, BadLine>
    ensures { IfOk result (λ groups. vec_len groups ≤ GROUPS_MAX) }
{
    let mut groups = Vec::new(alloc);
    match push_groups(&mut groups, line.text) {
        Ok(()) if groups.len() <= GROUPS_MAX => Ok(groups),
        Ok(()) => Err(line.bad(LineError::ManyGroups)),
        Err(error) => Err(line.bad(error)),
    }
}

fn push_groups(groups: &mut Vec<u32>, text: &[u8]) -> Result<(), LineError> {
    let mut rest = text;
    for _ in 0..=GROUPS_MAX {
        let Some((word, others)) = split_word(rest) else {
            return Ok(());
        };
        rest = others;
        push_group(groups, word)?;
    }
    Ok(())
}

fn push_group(groups: &mut Vec<u32>, word: &[u8]) -> Result<(), LineError> {
    let Some(group) = numeral(10, word, u64::from(u32::MAX)) else {
        return Err(LineError::BadNumber(Field::Groups));
    };
    match groups.push(group as u32) {
        Ok(()) => Ok(()),
        Err(_) => Err(LineError::NoMemory),
    }
}

/// The name behind a tab; bytes that don't print become question marks.
fn name_of(alloc: Global, line: Line<'_>) -> Result<String, BadLine> {
    let text = line.text.strip_prefix(b"\t").unwrap_or(line.text);
    match printing(alloc, text) {
        Ok(name) => Ok(name),
        Err(AllocError) => Err(line.bad(LineError::NoMemory)),
    }
}

fn printing(alloc: Global, text: &[u8]) -> Result<String, AllocError> {
    let mut shown = String::new(alloc);
    for byte in text {
        let byte = if byte.is_ascii_graphic() || *byte == b' ' {
            *byte
        } else {
            b'?'
        };
        shown.push(char::from(byte))?;
    }
    Ok(shown)
}
