//! What a call waits for.

ghost use Rattle.std.specs.Prelude.{◌≡◌, length};
ghost use Rattle.ipc_history.specs.History.{run};
ghost use Rattle.call_reasons.specs.Waits.{awaited_by as awaited_with, awaited_in};

use crate::cases::Told;
use crate::queues::{print_fill, print_sought};
use ipc_call::{Call, SemOper};
use ipc_space::Space;
use number_text::print_number;
use std::fmt::Write;

/// What a call waits for.
#[derive(Clone, Copy, Debug, PartialEq, Eq)]
pub enum Awaited {
    /// That an operation can go on: the first of its semop that can't.
    Semaphore { id: u32, oper: SemOper },
    /// Room in a queue for a text of this length.
    Room { id: u32, len: usize },
    /// A message of a queue: the msgtyp and the flags of its msgrcv.
    Message { id: u32, msgtyp: i64, flags: u32 },
}

/// What the waiting call of a client waits for; `None` where none of its calls waits.
pub fn awaited_by(space: &mut Space, client: u32) -> Option<Awaited>
    ensures awaited { result ≡ awaited_in (run space.old) client }
    ensures same { space.new ≡ space.old }
{
    let stop = space.stopped_at(client);
    let waiting = space.waiting_of(client)?;
    awaited_at(&waiting.call, stop)
}

/// What a call waits for that stops at this operation.
fn awaited_at(call: &Call, stop: Option<SemOper>) -> Option<Awaited>
    ensures { result ≡ awaited_with stop call.now }
{
    match call {
        Call::MsgSnd { id, text, .. } => {
            let (id, len) = (*id, text.len());
            Some(Awaited::Room { id, len })
        }
        Call::MsgRcv {
            id,
            msgtyp,
            flags,
            ..
        } => {
            let (id, msgtyp, flags) = (*id, *msgtyp, *flags);
            Some(Awaited::Message { id, msgtyp, flags })
        }
        Call::SemOp { id, .. } => {
            let (id, oper) = (*id, stop?);
            Some(Awaited::Semaphore { id, oper })
        }
        _ => None,
    }
}

/// Appends what a call waits for, and until when, without a line feed.
pub fn print_awaited(out: &mut String, space: &Space, client: u32, awaited: Awaited) -> Told {
    match awaited {
        Awaited::Semaphore { id, oper } => print_semaphore(out, space, id, oper)?,
        Awaited::Room { id, len } => {
            write!(out, "for room in queue {id}: ")?;
            print_fill(out, space, id, len)?;
        }
        Awaited::Message { id, msgtyp, flags } => {
            out.push_str("for ")?;
            print_sought(out, msgtyp, flags)?;
            out.push_str(" in queue ")?;
            print_number(out, u64::from(id))?;
        }
    }
    if let Some(arrival) = space.waiting_of(client) {
        if let Some(deadline) = arrival.deadline {
            write!(out, ", until second {deadline} of the clock")?;
        }
    }
    Ok(())
}

fn print_semaphore(out: &mut String, space: &Space, id: u32, oper: SemOper) -> Told {
    let (num, op) = (oper.num, oper.op);
    let values = space.values_of(id)?;
    let value = values
        .as_slice()
        .get(usize::from(num))
        .copied()
        .unwrap_or(0);
    if op == 0 {
        write!(
            out,
            "for semaphore {num} of set {id} to become 0; its value is {value}"
        )
    } else {
        let need = op.unsigned_abs();
        write!(
            out,
            "for semaphore {num} of set {id} to rise: the operation takes {need}, and its value is {value}"
        )
    }
}
