//! What ended a wait.

use crate::asked::Asked;
use crate::calls::{object_of, word_of};
use crate::cases::{Told, object_named};
use crate::denials::denial_of;
use crate::objects::{print_denial, print_named, rights_in_words};
use ipc_call::{Call, Rule};
use ipc_space::Space;
use number_text::print_number;
use std::fmt::Write;

/// A call that began to wait.
#[derive(Clone, Copy, Debug)]
pub struct Wait {
    /// The place of its event.
    pub place: u64,
    /// The clock at its event.
    pub clock: u64,
    /// What it asks for.
    pub asked: Option<Asked>,
}

/// The event that ended waits: its place, the name of its client, and its call.
#[derive(Clone, Copy)]
pub struct Ender<'a> {
    /// Its place.
    pub place: u64,
    /// The name of its client.
    pub name: &'a str,
    /// Its call.
    pub call: &'a Call,
}

/// Appends lines that say what ended the wait of a client, and after how long. `rule` refused the call that waited, and is None
/// where it was granted.
pub fn explain_end(
    out: &mut String,
    space: &Space,
    client: u32,
    ender: Ender<'_>,
    wait: Wait,
    rule: Option<Rule>,
) -> Told {
    let clock = space.clock();
    let (since, seconds) = (wait.place, clock.saturating_sub(wait.clock));
    out.push_str("waited since event ")?;
    print_number(out, since)?;
    out.push_str(", ")?;
    print_number(out, seconds)?;
    out.push_str(" s: ")?;
    match rule {
        Some(Rule::TimedOut) => {
            let place = ender.place;
            return write!(
                out,
                "event {place} has set the clock to {clock}, and the deadline is reached\n"
            );
        }
        _ => print_ender(out, ender)?,
    }
    match rule {
        None => out.push_str(" let it proceed\n"),
        Some(Rule::Removed) => out.push_str(" removed the object\n"),
        Some(Rule::Interrupted) => out.push_str(" interrupted it\n"),
        Some(Rule::Ended) => out.push_str(" ended its thread\n"),
        Some(Rule::OwnerBits | Rule::GroupBits | Rule::OtherBits) => {
            out.push_str(" took its right\n")?;
            explain_loss(out, space, client, wait.asked)
        }
        Some(_) => out.push_str(" let it be decided again, and it is refused\n"),
    }
}

/// Appends an event as whose it is, and which call.
fn print_ender(out: &mut String, ender: Ender<'_>) -> Told {
    let Ender { place, name, call } = ender;
    out.push_str("event ")?;
    print_number(out, place)?;
    out.push_str(", ")?;
    out.push_str(name)?;
    out.push_str("'s ")?;
    out.push_str(word_of(call))?;
    if let Some((kind, id)) = object_of(call) {
        out.push_str(" on ")?;
        print_named(out, kind, id)?;
    }
    out.push_str(",")
}

/// Tells which bits decide now.
fn explain_loss(out: &mut String, space: &Space, client: u32, asked: Option<Asked>) -> Told {
    let (Some(asked), Some(creds)) = (asked, space.creds_of(client)) else {
        return Ok(());
    };
    let Some(object) = object_named(space, asked.target) else {
        return Ok(());
    };
    if let Some(denial) = denial_of(creds, &object.perm, asked.want) {
        let rights = rights_in_words(denial.want);
        write!(out, "the call that waited asks to {rights}")?;
        print_denial(out, creds, &object, denial, None)?;
    }
    Ok(())
}
