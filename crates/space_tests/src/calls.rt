// Lists and calls that are copied, and what a rule says.

use ipc_call::{Call, IPC_CREAT, IPC_NOWAIT, Items, Kind, Rule};
use std::alloc::Global;
use std::io;
use std::test::Fail;

/// These bytes as a list.
fn list(alloc: Global, bytes: &[u8]) -> Result<Items<u8>, Fail> {
    Ok(Items::new(Vec::from_slice(alloc, bytes)?))
}

/// A copy of a list of the one equals a list of the other.
fn copy_equals(alloc: Global, bytes: &[u8], others: &[u8]) -> Result<bool, Fail> {
    let copied = list(alloc, bytes)?.copy()?;
    Ok(copied == list(alloc, others)?)
}

/// A copy of a list has so many bytes and these, also when it is taken apart.
fn copy_has(alloc: Global, bytes: &[u8]) -> Result<bool, Fail> {
    let copied = list(alloc, bytes)?.copy()?;
    let same = copied.len() == bytes.len() && copied.as_slice() == bytes;
    let apart = copied.into_vec();
    Ok(same && apart.as_slice() == bytes)
}

#[test]
fn a_copied_list_equals_its_source_alone(rt: HostRuntime) -> Result<(), Fail> {
    let alloc = rt.alloc();
    assert!(rt; copy_has(alloc, &[104, 0, 255])?);
    assert!(rt; copy_equals(alloc, &[104, 0, 255], &[104, 0, 255])?);
    assert!(rt; !copy_equals(alloc, &[104, 0, 255], &[104, 0])?);
    assert!(rt; !copy_equals(alloc, &[104, 0, 255], &[104, 0, 254])?);
    Ok(())
}

/// A copy of the call equals it.
fn is_copied(call: Call) -> Result<bool, Fail> {
    let copied = call.copy()?;
    let equals = copied == call;
    drop(copied);
    drop(call);
    Ok(equals)
}

#[test]
fn a_copied_call_equals_its_source(rt: HostRuntime) -> Result<(), Fail> {
    let get = Call::MsgGet {
        key: 5,
        flags: IPC_CREAT | 0o600,
    };
    assert!(rt; is_copied(get)?);
    let send = Call::MsgSnd {
        id: 7,
        mtype: -3,
        text: Items::new(vec![in rt.alloc(); 104u8, 0]?),
        flags: IPC_NOWAIT,
    };
    assert!(rt; is_copied(send)?);
    let (kind, id) = (Kind::Segment, 32768);
    assert!(rt; is_copied(Call::IpcRmid { kind, id })?);
    Ok(())
}

#[test]
fn a_rule_says_why_and_becomes_an_error_of_its_number(rt: HostRuntime) -> Result<(), Fail> {
    let said = format!(in rt.alloc(); "{}", Rule::OwnerBits)?;
    let why =
        "Permission denied: the caller is in the owner class, whose bits deny it (owner-bits)";
    assert_eq!(rt; said.as_str(), why);
    let error = io::Error::from(Rule::Removed);
    assert_eq!(rt; error.raw_os_error(), Some(43));
    Ok(())
}
