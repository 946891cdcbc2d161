//! Worked queues, with the messages that msgop(2) has a receiver take.

use ipc_call::Items;
use msg_queue::Queue;
use std::alloc::Global;
use std::process::Abort;
use std::test::Fail;

/// Puts a message in, with a text of `len` bytes.
fn put(
    rt: &impl Abort,
    alloc: Global,
    queue: &mut Queue,
    mtype: i64,
    len: usize,
) -> Result<(), Fail> {
    let text = Items::new(vec![in alloc; 7u8; len]?);
    queue.reserve_one()?;
    assert!(rt; queue.fits(text.len()));
    queue.put(mtype, text);
    Ok(())
}

/// Puts messages of these types in, each with a text of so many bytes.
fn put_each(
    rt: &(impl Abort + AllocGlobal),
    queue: &mut Queue,
    messages: &[(i64, usize)],
) -> Result<(), Fail> {
    for (mtype, len) in messages {
        put(rt, rt.alloc(), queue, *mtype, *len)?;
    }
    Ok(())
}

/// The length of the text of the message that is chosen, by which the messages of a test differ.
fn chosen(queue: &Queue, msgtyp: i64, except: bool) -> Option<usize> {
    queue.choose(msgtyp, except).map(|(_, len)| len)
}

/// Takes the message that is chosen.
fn receive(queue: &mut Queue, msgtyp: i64) -> Option<(i64, Items<u8>)> {
    match queue.choose(msgtyp, false) {
        None => None,
        Some((place, _)) => Some(queue.take(place)),
    }
}

/// The messages that are chosen, one after another, have these types, and texts of so many bytes.
fn check_received(rt: &impl Abort, queue: &mut Queue, msgtyp: i64, messages: &[(i64, usize)]) {
    for wanted in messages {
        let received = receive(queue, msgtyp).map(|(mtype, text)| (mtype, text.len()));
        assert_eq!(rt; received, Some(*wanted));
    }
}

/// Of what is chosen by a msgtyp, with MSG_EXCEPT or not, the text has this length, or nothing is.
fn check_chosen(rt: &impl Abort, queue: &Queue, choices: &[(i64, bool, Option<usize>)]) {
    for (msgtyp, except, want) in choices {
        let found = chosen(queue, *msgtyp, *except);
        assert_eq!(rt; found, *want, "at {msgtyp}, {except}");
    }
}

/// The longest text that fits has so many bytes, or none fits.
fn check_room(rt: &impl Abort, queue: &Queue, longest: Option<usize>) {
    match longest {
        None => assert!(rt; !queue.fits(0)),
        Some(len) => assert!(rt; queue.fits(len) && !queue.fits(len.saturating_add(1))),
    }
}

#[test]
fn a_receiver_takes_the_message_of_its_msgtyp(rt: HostRuntime) -> Result<(), Fail> {
    let mut queue = Queue::new(rt.alloc(), 100);
    let of_none = [
        (0, false, None),
        (1, false, None),
        (-1, false, None),
        (1, true, None),
    ];
    check_chosen(&rt, &queue, &of_none);
    let messages = [(5, 0), (3, 1), (8, 2), (3, 3), (2, 4), (i64::MAX, 5)];
    put_each(&rt, &mut queue, &messages)?;
    let choices = [
        (0, false, Some(0)),
        (0, true, Some(0)),
        (1, false, None),
        (1, true, Some(0)),
        (3, false, Some(1)),
        (3, true, Some(0)),
        (5, true, Some(1)),
        (i64::MAX, false, Some(5)),
        (i64::MAX, true, Some(0)),
        (-1, false, None),
        (-1, true, None),
        (-2, false, Some(4)),
        (-2, true, Some(4)),
        (-4, false, Some(4)),
        (i64::MIN, false, Some(4)),
    ];
    check_chosen(&rt, &queue, &choices);
    Ok(())
}

#[test]
fn a_negative_msgtyp_takes_the_first_of_the_lowest_type(rt: HostRuntime) -> Result<(), Fail> {
    let mut queue = Queue::new(rt.alloc(), 100);
    put_each(&rt, &mut queue, &[(i64::MAX, 1)])?;
    let choices = [
        (-i64::MAX, false, Some(1)),
        (i64::MIN, false, Some(1)),
        (1 - i64::MAX, false, None),
    ];
    check_chosen(&rt, &queue, &choices);
    put_each(&rt, &mut queue, &[(4, 2), (3, 3), (3, 4)])?;
    check_received(&rt, &mut queue, -4, &[(3, 3), (3, 4), (4, 2)]);
    check_chosen(&rt, &queue, &[(-4, false, None)]);
    assert_eq!(rt; queue.count(), 1);
    Ok(())
}

#[test]
fn room_ends_at_qbytes(rt: HostRuntime) -> Result<(), Fail> {
    let mut queue = Queue::new(rt.alloc(), 4);
    check_room(&rt, &queue, Some(4));
    put_each(&rt, &mut queue, &[(1, 3)])?;
    check_room(&rt, &queue, Some(1));
    put_each(&rt, &mut queue, &[(2, 0), (2, 0), (2, 0)])?;
    assert_eq!(rt; (queue.bytes(), queue.count(), queue.qbytes()), (3, 4, 4));
    check_room(&rt, &queue, None);
    queue.set_qbytes(2);
    check_received(&rt, &mut queue, 2, &[(2, 0), (2, 0)]);
    check_room(&rt, &queue, None);
    check_received(&rt, &mut queue, 1, &[(1, 3)]);
    check_room(&rt, &queue, Some(2));
    queue.set_qbytes(0);
    check_received(&rt, &mut queue, 0, &[(2, 0)]);
    check_room(&rt, &queue, None);
    Ok(())
}

/// The messages of type 9 come out with these texts.
fn check_texts(rt: &impl Abort, queue: &mut Queue, texts: &[[u8; 2]]) {
    for wanted in texts {
        match receive(queue, 0) {
            None => panic!(rt; "no message"),
            Some((mtype, text)) => assert!(rt; mtype == 9 && text.as_slice() == wanted.as_slice()),
        }
    }
}

#[test]
fn texts_come_out_as_they_were_put_in(rt: HostRuntime) -> Result<(), Fail> {
    let alloc = rt.alloc();
    let mut queue = Queue::new(alloc, 16);
    queue.reserve_one()?;
    queue.reserve_one()?;
    queue.reserve_one()?;
    let hello = Items::new(vec![in alloc; 104u8, 105]?);
    assert!(rt; queue.fits(hello.len()));
    queue.put(9, hello);
    let bytes = Items::new(vec![in alloc; 0u8, 255]?);
    assert!(rt; queue.fits(bytes.len()));
    queue.put(9, bytes);
    queue.free_one();
    check_texts(&rt, &mut queue, &[[104, 105], [0, 255]]);
    assert_eq!(rt; (queue.bytes(), queue.count()), (0, 0));
    Ok(())
}

#[test]
fn a_message_that_has_a_place_goes_through_without_memory(rt: HostRuntime) -> Result<(), Fail> {
    let alloc = rt.alloc();
    let mut queue = Queue::new(alloc, 100);
    put_each(&rt, &mut queue, &[(5, 1), (3, 2), (5, 3)])?;
    let text = Items::new(vec![in alloc; 7u8; 4]?);
    queue.reserve_one()?;
    assert!(rt; queue.fits(text.len()));
    eprintln!(rt; "quiet begins")?;
    queue.put(3, text);
    check_received(&rt, &mut queue, -4, &[(3, 2), (3, 4)]);
    check_received(&rt, &mut queue, 0, &[(5, 1), (5, 3)]);
    eprintln!(rt; "quiet ends")?;
    Ok(())
}
