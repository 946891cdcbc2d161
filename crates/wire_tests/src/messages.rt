//! Bytes written by hand, with what they are read as and written from.

use ipc_call::{Answer, Call, Items, Kind, Memory, Rule, SemOper};
use ipc_wire::{Ask, BadMessage, Hindrance, Look, Message, ReplyBytes, Request, Told, read};
use std::alloc::Global;
use std::test::*;

// A message whose words end with zeros, and its payload.
fn message(alloc: Global, words: &[u8], payload: &[u8]) -> Result<Vec<u8>, Memory> {
    let mut bytes = Vec::from_slice(alloc, words)?;
    bytes.resize(48, 0)?;
    bytes.extend_from_slice(payload)?;
    Ok(bytes)
}

// The call that a message asks.
fn call_of(alloc: Global, words: &[u8], payload: &[u8]) -> Result<Option<Call>, Memory> {
    let bytes = message(alloc, words, payload)?;
    Ok(match read(alloc, bytes.as_slice()) {
        Ok(
            Message {
                seq: 7,
                request: Request::Calls(ask),
            },
        ) => Some(ask.call()),
        _ => None,
    })
}

#[test]
fn get_is_read(rt: HostRuntime) -> Result<(), Fail> {
    let call = call_of(
        rt.alloc(),
        b"\x0a\0\0\0\x07\0\0\0\x34\x12\0\0\0\0\0\0\x80\x03\0\0\0\0\0\0",
        b"",
    )?;
    let wanted = Call::MsgGet {
        key: 0x1234,
        flags: 0o1600,
    };
    assert!(rt; call == Some(wanted));
    Ok(())
}

#[test]
fn send_is_read(rt: HostRuntime) -> Result<(), Fail> {
    let call = call_of(
        rt.alloc(),
        b"\x0b\0\0\0\x07\0\0\0\x03\0\0\0\x01\0\0\0\xfe\xff\xff\xff\xff\xff\xff\xff\0\x08\0\0\0\0\0\0",
        b"hi",
    )?;
    let text = Items::new(Vec::from_slice(rt.alloc(), b"hi")?);
    let wanted = Call::MsgSnd {
        id: u32::MAX,
        mtype: -2,
        text,
        flags: 2048,
    };
    assert!(rt; call == Some(wanted));
    Ok(())
}

#[test]
fn semop_without_a_timeout_is_read(rt: HostRuntime) -> Result<(), Fail> {
    let call = call_of(
        rt.alloc(),
        b"\x16\0\0\0\x07\0\0\0\x05\0\0\0\0\0\0\0\xff\xff\xff\xff\xff\xff\xff\xff",
        b"\x01\0\xff\xff\0\x10\x02\0\x03\0\0\0",
    )?;
    let undone = SemOper {
        num: 1,
        op: -1,
        flags: 4096,
    };
    let plain = SemOper {
        num: 2,
        op: 3,
        flags: 0,
    };
    let ops = Items::new(Vec::from_slice(rt.alloc(), &[undone, plain])?);
    assert!(rt; call == Some(Call::SemOp { id: 5, ops }));
    Ok(())
}

#[test]
fn set_is_read(rt: HostRuntime) -> Result<(), Fail> {
    let call = call_of(
        rt.alloc(),
        b"\x29\0\0\0\x07\0\0\0\x02\0\0\0\0\0\0\0\x05\0\0\0\0\0\0\0\xe8\x03\0\0\0\0\0\0\x64\0\0\0\0\0\0\0\x80\x01\0\0\0\0\0\0",
        b"\0\x40\0\0\0\0\0\0",
    )?;
    let wanted = Call::IpcSet {
        kind: Kind::Segment,
        id: 5,
        uid: 1000,
        gid: 100,
        mode: 0o600,
        qbytes: Some(16384),
    };
    assert!(rt; call == Some(wanted));
    Ok(())
}

#[test]
fn hello_and_a_look_are_read(rt: HostRuntime) -> Result<(), Fail> {
    let hello = message(rt.alloc(), b"\x01\0\0\0\0\0\0\0\x01\0\0\0\0\0\0\0\xff", b"")?;
    assert!(rt;
        matches!(
            read(rt.alloc(), hello.as_slice()),
            Ok(Message {
                seq: 0,
                request: Request::Hello {
                    version: 1,
                    token: 255
                }
            })
        )
    );
    let look = message(
        rt.alloc(),
        b"\x33\0\0\0\0\x01\0\0\x01\0\0\0\0\0\0\0\x09\0\0\0\0\0\0\0\x01",
        b"",
    )?;
    assert!(rt;
        matches!(
            read(rt.alloc(), look.as_slice()),
            Ok(Message {
                seq: 256,
                request: Request::Looks(Look::At {
                    kind: Kind::Sems,
                    slot: 9,
                    any: true
                })
            })
        )
    );
    Ok(())
}

#[test]
fn other_bytes_are_no_request(rt: HostRuntime) -> Result<(), Fail> {
    // No operation has code 4; CANCEL has one word and no payload; the upper half of a key is 0; there are kinds 0 to 2; an
    // operation has six bytes; a value is at most 2147483647.
    let wrong: [(&[u8], &[u8]); 7] = [
        (b"\x04", b""),
        (b"\x02\0\0\0\0\0\0\0\x01\0\0\0\0\0\0\0\x01", b""),
        (b"\x02", b"\0"),
        (b"\x0a\0\0\0\0\0\0\0\0\0\0\0\x01", b""),
        (b"\x28\0\0\0\0\0\0\0\x03", b""),
        (b"\x15", b"\0\0\0\0\0\0\0"),
        (
            b"\x1c\0\0\0\0\0\0\0\0\0\0\0\0\0\0\0\0\0\0\0\0\0\0\0\0\0\0\x80",
            b"",
        ),
    ];
    for (words, payload) in wrong {
        let bytes = message(rt.alloc(), words, payload)?;
        assert!(rt; matches!(read(rt.alloc(), bytes.as_slice()), Err(BadMessage::Unknown)));
    }
    Ok(())
}

#[test]
fn replies_are_written(rt: HostRuntime) -> Result<(), Fail> {
    let mut reply = ReplyBytes::new(rt.alloc())?;
    assert!(rt; reply.write(7, &Told::Refused(Rule::BadId)));
    assert!(rt;
        reply.as_slice()
            == b"\x07\0\0\0\x16\0\0\0\x16\0\0\0\0\0\0\0\0\0\0\0\0\0\0\0\0\0\0\0\0\0\0\0\0\0\0\0\0\0\0\0".as_slice()
    );
    let text = Items::new(Vec::from_slice(rt.alloc(), b"hi")?);
    let answer = Answer::Message { mtype: 258, text };
    assert!(rt; reply.write(8, &Told::Granted { answer, size: 0 }));
    assert!(rt;
        reply.as_slice()
            == b"\x08\0\0\0\0\0\0\0\0\0\0\0\x03\0\0\0\x02\x01\0\0\0\0\0\0\0\0\0\0\0\0\0\0\0\0\0\0\0\0\0\0hi".as_slice()
    );
    assert!(rt; reply.write(9, &Told::Hindered(Hindrance::NoClientLeft)));
    assert!(rt;
        reply.as_slice()
            == b"\x09\0\0\0\x0b\0\0\0\x2a\0\0\0\0\0\0\0\0\0\0\0\0\0\0\0\0\0\0\0\0\0\0\0\0\0\0\0\0\0\0\0".as_slice()
    );
    Ok(())
}
