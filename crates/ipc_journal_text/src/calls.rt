// The calls of a journal as text.

ghost use Rattle.std.specs.Prelude.{◌≡◌, ◌++◌, OnOk, flat_map, string_bytes};
ghost use Rattle.ipc_journal_text.specs.CredentialsText.{more_text, numbers_text};
ghost use Rattle.ipc_journal_text.specs.CallText.{bytes_text, call_text, fork_text, groups_text, kind_text, object_text, oper_text, pair_text, qbytes_text, timed_text, value_text};

use crate::credentials::print_identity;
use ipc_call::{Call, Items, Kind, Memory, SemOper};
use std::fmt::Write;

/// Appends a call in the words of the script language, as `msgget 0x5 0600`. `Memory` comes where a growth was refused,
/// and a part of the text may then stand in `text`; so with each of the printers.
pub fn print_call(text: &mut String, call: &Call) -> Result<(), Memory>
    ensures { OnOk result (string_bytes text.new ≡ string_bytes text.old ++ call_text call.now) }
{
    match call {
        Call::MsgGet { key, flags } => write!(text, "msgget 0x{key:x} 0{flags:o}"),
        Call::MsgSnd {
            id,
            mtype,
            text: bytes,
            flags,
        } => {
            write!(text, "msgsnd {id} {mtype}")?;
            print_bytes(text, bytes.as_slice())?;
            write!(text, " 0{flags:o}")
        }
        Call::MsgRcv {
            id,
            size,
            msgtyp,
            flags,
        } => write!(text, "msgrcv {id} {size} {msgtyp} 0{flags:o}"),
        Call::SemGet { key, nsems, flags } => write!(text, "semget 0x{key:x} {nsems} 0{flags:o}"),
        Call::SemOp { id, ops } => {
            write!(text, "semop {id}")?;
            print_opers(text, ops.as_slice())
        }
        Call::SemTimedOp { id, ops, timeout } => {
            print_timed(text, *id, *timeout)?;
            print_opers(text, ops.as_slice())
        }
        Call::GetVal { id, num } => print_pair(text, "getval", *id, *num),
        Call::GetPid { id, num } => print_pair(text, "getpid", *id, *num),
        Call::GetNcnt { id, num } => print_pair(text, "getncnt", *id, *num),
        Call::GetZcnt { id, num } => print_pair(text, "getzcnt", *id, *num),
        Call::GetAll { id } => write!(text, "getall {id}"),
        Call::SetVal { id, num, value } => {
            print_pair(text, "setval", *id, *num)?;
            print_value(text, *value)
        }
        Call::SetAll { id, values } => {
            write!(text, "setall {id}")?;
            print_values(text, values.as_slice())
        }
        Call::ShmGet { key, size, flags } => write!(text, "shmget 0x{key:x} {size} 0{flags:o}"),
        Call::ShmAt { id, flags } => write!(text, "shmat {id} 0{flags:o}"),
        Call::ShmDt { att } => write!(text, "shmdt {att}"),
        Call::ShmRead { att, offset, len } => write!(text, "shmread {att} {offset} {len}"),
        Call::ShmWrite { att, offset, bytes } => {
            write!(text, "shmwrite {att} {offset}")?;
            print_bytes(text, bytes.as_slice())
        }
        Call::IpcStat { kind, id } => print_object(text, "stat", *kind, *id),
        Call::IpcSet {
            kind,
            id,
            mode,
            uid,
            gid,
            qbytes,
        } => {
            print_object(text, "set", *kind, *id)?;
            write!(text, " {uid} {gid} 0{mode:o}")?;
            print_qbytes(text, *qbytes)
        }
        Call::IpcRmid { kind, id } => print_object(text, "rmid", *kind, *id),
        Call::Listing { kind } => {
            text.push_str("ipcs -")?;
            text.push_str(kind_word(*kind))
        }
        Call::Interrupt { pid } => write!(text, "interrupt {pid}"),
        Call::InterruptThread { client } => write!(text, "interrupt client:{client}"),
        Call::Kill { pid } => write!(text, "kill {pid}"),
        Call::SetCreds { euid, egid, groups } => {
            write!(text, "setcreds {euid} {egid}")?;
            print_groups(text, groups)
        }
        Call::Assume { creds } => {
            text.push_str("assume")?;
            print_identity(text, creds.get())
        }
        Call::Begin { pid, creds } => {
            write!(text, "begin {pid}")?;
            print_identity(text, creds.get())
        }
        Call::Fork { child, pid } => print_fork(text, *child, *pid),
        Call::Clone { child } => write!(text, "clone client:{child}"),
        Call::Name { pid } => write!(text, "name {pid}"),
        Call::Exec => text.push_str("exec"),
        Call::Exit => text.push_str("exit"),
    }
}

fn kind_word(kind: Kind) -> &'static str
    ensures { result.now ≡ kind_text kind }
{
    match kind {
        Kind::Queue => "q",
        Kind::Sems => "s",
        Kind::Segment => "m",
    }
}

fn print_pair(text: &mut String, word: &str, first: u32, second: u32) -> Result<(), Memory>
    ensures { OnOk result (string_bytes text.new ≡ string_bytes text.old ++ pair_text word.now first second) }
{
    write!(text, "{word} {first} {second}")
}

fn print_object(text: &mut String, word: &str, kind: Kind, id: u32) -> Result<(), Memory>
    ensures { OnOk result (string_bytes text.new ≡ string_bytes text.old ++ object_text word.now kind id) }
{
    let kind = kind_word(kind);
    write!(text, "{word} {kind} {id}")
}

fn print_bytes(text: &mut String, bytes: &[u8]) -> Result<(), Memory>
    ensures { OnOk result (string_bytes text.new ≡ string_bytes text.old ++ bytes_text bytes.now) }
{
    let digits = hex::encode(*text.allocator(), bytes)?;
    write!(text, " x:{digits}")
}

fn print_opers(text: &mut String, opers: &[SemOper]) -> Result<(), Memory>
    ensures { OnOk result (string_bytes text.new ≡ string_bytes text.old ++ flat_map oper_text opers.now) }
{
    for oper in opers {
        let SemOper { num, op, flags } = *oper;
        write!(text, " {num}:{op}:0{flags:o}")?;
    }
    Ok(())
}

#[tactic(auto, unfolding(crate::specs::CallText::timed_text))]
fn print_timed(text: &mut String, id: u32, timeout: u64) -> Result<(), Memory>
    ensures { OnOk result (string_bytes text.new ≡ string_bytes text.old ++ timed_text id timeout) }
{
    write!(text, "semtimedop {id} {timeout}")
}

#[tactic(auto, unfolding(crate::specs::CallText::fork_text))]
fn print_fork(text: &mut String, child: u32, pid: u32) -> Result<(), Memory>
    ensures { OnOk result (string_bytes text.new ≡ string_bytes text.old ++ fork_text child pid) }
{
    write!(text, "fork client:{child} {pid}")
}

fn print_value(text: &mut String, value: i32) -> Result<(), Memory>
    ensures { OnOk result (string_bytes text.new ≡ string_bytes text.old ++ value_text value) }
{
    write!(text, " {value}")
}

fn print_values(text: &mut String, values: &[i32]) -> Result<(), Memory>
    ensures { OnOk result (string_bytes text.new ≡ string_bytes text.old ++ flat_map value_text values.now) }
{
    for value in values {
        print_value(text, *value)?;
    }
    Ok(())
}

fn print_qbytes(text: &mut String, qbytes: Option<u64>) -> Result<(), Memory>
    ensures { OnOk result (string_bytes text.new ≡ string_bytes text.old ++ qbytes_text qbytes) }
{
    match qbytes {
        None => Ok(()),
        Some(qbytes) => write!(text, " {qbytes}"),
    }
}

fn print_groups(text: &mut String, groups: &Option<Items<u32>>) -> Result<(), Memory>
    ensures { OnOk result (string_bytes text.new ≡ string_bytes text.old ++ groups_text groups.now) }
{
    match groups {
        None => Ok(()),
        Some(groups) => {
            text.push_str(" groups=")?;
            print_numbers(text, groups.as_slice())
        }
    }
}

/// Appends numbers with commas between them, or `-` where there is none.
pub(crate) fn print_numbers(text: &mut String, numbers: &[u32]) -> Result<(), Memory>
    ensures { OnOk result (string_bytes text.new ≡ string_bytes text.old ++ numbers_text numbers.now) }
{
    match numbers.split_first() {
        None => text.push_str("-"),
        Some((first, others)) => {
            write!(text, "{first}")?;
            print_more(text, others)
        }
    }
}

fn print_more(text: &mut String, numbers: &[u32]) -> Result<(), Memory>
    ensures { OnOk result (string_bytes text.new ≡ string_bytes text.old ++ flat_map more_text numbers.now) }
{
    for number in numbers {
        write!(text, ",{number}")?;
    }
    Ok(())
}
