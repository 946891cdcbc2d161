//! Worked queues, whose calls come out as msgget(2) and msgop(2) say.

use ipc_call::{
    Answer, Get, IPC_CREAT, IPC_EXCL, IPC_NOWAIT, Items, Limits, MSG_EXCEPT, MSG_NOERROR, Receive,
    Rule, Sending, Status,
};
use msg_calls::{Queues, status};
use object_calls::Caller;
use std::process::Abort;
use std::test::Fail;
use test_support::clients::user;

/// The identifier that msgget answers, for which there is memory.
fn get(queues: &mut Queues, who: &Caller, key: u32, flags: u32) -> Option<Result<u32, Rule>> {
    match queues.msgget(&Limits::default(), who, Get { key, flags }) {
        Ok(Ok(Answer::Id(id))) => Some(Ok(id)),
        Ok(Err(rule)) => Some(Err(rule)),
        _ => None,
    }
}

/// The owner and the key of a queue.
fn owner_and_key(queues: &Queues, id: u32) -> Option<(u32, u32)> {
    let perm = queues.perm(id)?;
    Some((perm.uid, perm.key))
}

/// Sends a message where that is granted.
fn send(
    queues: &mut Queues,
    who: &Caller,
    id: u32,
    mtype: i64,
    text: Items<u8>,
) -> Result<(), Fail> {
    if queues.get(id).is_none() {
        return Err(Fail::from("no queue"));
    }
    queues.reserve(id)?;
    let len = text.len();
    let sent = Sending {
        mtype,
        len,
        flags: 0,
    };
    match queues.decide_send(&Limits::default(), who, id, sent) {
        Some(Ok(())) => queues.send_reserved(who, id, mtype, text),
        Some(Err(_)) => return Err(Fail::from("refused")),
        None => return Err(Fail::from("waits")),
    }
    Ok(())
}

/// What msgsnd asks for, without a flag.
fn sending(mtype: i64, len: usize) -> Sending {
    Sending {
        mtype,
        len,
        flags: 0,
    }
}

/// What msgrcv asks for.
fn asked(size: u64, msgtyp: i64, flags: u32) -> Receive {
    Receive {
        size,
        msgtyp,
        flags,
    }
}

/// Receives a message of which one byte is wanted, of another type than this.
fn receive_but(queues: &mut Queues, who: &Caller, msgtyp: i64) -> Result<(i64, Items<u8>), Fail> {
    let flags = MSG_EXCEPT | MSG_NOERROR;
    match queues.msgrcv(who, 0, asked(1, msgtyp, flags)) {
        Some(Ok(Answer::Message { mtype, text })) => Ok((mtype, text)),
        _ => Err(Fail::from("no message")),
    }
}

/// Gets by these keys and flags, each with the identifier or the refusal beside them.
fn check_gets(
    rt: &impl Abort,
    queues: &mut Queues,
    who: &Caller,
    gets: &[(u32, u32, Result<u32, Rule>)],
) {
    for (key, flags, wanted) in gets {
        let got = get(queues, who, *key, *flags);
        assert_eq!(rt; got, Some(*wanted), "of {key}, {flags}");
    }
}

#[test]
fn a_key_has_one_queue(rt: HostRuntime) {
    let alloc = rt.alloc();
    let alice = user(100, 10);
    let bob = user(200, 20);
    let alice = Caller::new(0, 0, 1, &alice, 5);
    let bob = Caller::new(1, 1, 2, &bob, 6);
    let mut queues = Queues::new(alloc, 2, 0);
    let alices = [
        (9, 0, Err(Rule::NoKey)),
        (9, IPC_CREAT | 0o600, Ok(0)),
        (9, 0o600, Ok(0)),
    ];
    check_gets(&rt, &mut queues, &alice, &alices);
    let bobs = [
        (9, 0o400, Err(Rule::OtherBits)),
        (9, IPC_CREAT | IPC_EXCL, Err(Rule::KeyExists)),
        (0, 0o600, Ok(1)),
        (0, 0o600, Err(Rule::NoSlot)),
    ];
    check_gets(&rt, &mut queues, &bob, &bobs);
    assert_eq!(rt; owner_and_key(&queues, 0), Some((100, 9)));
    assert_eq!(rt; owner_and_key(&queues, 1), Some((200, 0)));
    drop(queues);
}

/// Sends that are refused.
fn check_refusals(rt: &impl Abort, queues: &Queues, who: &Caller) {
    let limits = Limits::default();
    assert!(rt; queues.decide_send(&limits, who, 1, sending(3, 2)) == Some(Err(Rule::BadId)));
    assert!(rt; queues.decide_send(&limits, who, 0, sending(0, 2)) == Some(Err(Rule::BadType)));
    assert!(rt;
        queues.decide_send(&limits, who, 0, sending(3, 8193)) == Some(Err(Rule::TextTooLong))
    );
}

/// Receives that leave the only message, two bytes of type 3, in its queue.
fn check_receives(rt: &impl Abort, queues: &mut Queues, who: &Caller) {
    assert!(rt; queues.msgrcv(who, 0, asked(9, 4, IPC_NOWAIT)) == Some(Err(Rule::NoMessage)));
    assert!(rt; queues.msgrcv(who, 0, asked(9, 4, 0)).is_none());
    assert!(rt; queues.msgrcv(who, 0, asked(1, 0, 0)) == Some(Err(Rule::MessageTooLong)));
}

/// The queue had one message, which client 4 sent and received at time 7.
fn check_status(rt: &impl Abort, queues: &Queues) {
    let Some(queue) = queues.get(0) else {
        panic!(rt; "no queue");
    };
    let Status::Queue(told) = status(queue) else {
        panic!(rt; "no status of a queue");
    };
    assert!(rt; told.qnum == 0 && told.lspid == 5 && told.lrpid == 5);
    assert!(rt; told.stime == 7 && told.rtime == 7 && told.ctime == 7);
}

/// A message of two bytes goes through the queue.
fn check_message(
    rt: &(impl Abort + AllocGlobal),
    queues: &mut Queues,
    who: &Caller,
) -> Result<(), Fail> {
    let text = Items::new(vec![in rt.alloc(); 104u8, 105]?);
    send(queues, who, 0, 3, text)?;
    check_receives(rt, queues, who);
    let (mtype, text) = receive_but(queues, who, 4)?;
    assert!(rt; mtype == 3 && text.as_slice() == [104].as_slice());
    check_status(rt, queues);
    Ok(())
}

#[test]
fn a_message_goes_through_a_queue(rt: HostRuntime) -> Result<(), Fail> {
    let alloc = rt.alloc();
    let creds = user(100, 10);
    let who = Caller::new(4, 4, 5, &creds, 7);
    let mut queues = Queues::new(alloc, 1, 0);
    assert_eq!(rt; get(&mut queues, &who, 9, IPC_CREAT | 0o600), Some(Ok(0)));
    check_refusals(&rt, &queues, &who);
    let checked = check_message(&rt, &mut queues, &who);
    drop(queues);
    checked
}
