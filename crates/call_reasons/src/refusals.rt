//! Why a call was refused.

use crate::cases::{Case, Told};
use crate::objects::{
    explain_bad_argument, explain_bad_id, explain_bits, explain_control, explain_key_exists,
    explain_no_key, explain_no_slot, explain_resource,
};
use crate::processes::{
    explain_groups, explain_in_use, explain_no_process, explain_other_user, explain_own_group,
    explain_own_user, explain_pid_in_use,
};
use crate::queues::{explain_full, explain_no_message, explain_too_long, explain_type};
use crate::segments::{explain_not_attached, explain_range, explain_read_only, explain_size};
use crate::sets::{explain_count, explain_number, explain_operations, explain_trial};
use ipc_call::{Call, Rule};
use std::fmt::Write;

/// Appends lines that say why the rule has refused the call. The error comes only where an allocation fails, and a part of the text
/// may then stand in `out`; so with all that is told.
pub fn explain_refusal(out: &mut String, case: Case<'_>, rule: Rule) -> Told {
    match rule {
        Rule::OwnerBits | Rule::GroupBits | Rule::OtherBits => explain_bits(out, case),
        Rule::NotOwner => explain_control(out, case),
        Rule::NeedsResource => explain_resource(out, case),
        Rule::NotSameUser => explain_other_user(out, case),
        Rule::NotOwnUser => explain_own_user(out, case),
        Rule::NotOwnGroup => explain_own_group(out, case),
        Rule::NeedsSetgid | Rule::TooManyGroups => explain_groups(out, case),
        Rule::ReadOnly => explain_read_only(out, case),
        Rule::NoKey => explain_no_key(out, case),
        Rule::KeyExists => explain_key_exists(out, case),
        Rule::NoSlot => explain_no_slot(out, case),
        Rule::BadId => explain_bad_id(out, case),
        _ => explain_numbers(out, case, rule),
    }
}

/// The same of the rules that compare numbers.
fn explain_numbers(out: &mut String, case: Case<'_>, rule: Rule) -> Told {
    match rule {
        Rule::NoProcess => explain_no_process(out, case),
        Rule::ClientInUse => explain_in_use(out, case),
        Rule::PidInUse => explain_pid_in_use(out, case),
        Rule::BadPid => out.push_str("0 is the number of no process\n"),
        Rule::NoClient => out.push_str("there is no such client\n"),
        Rule::QueueFull => explain_full(out, case),
        Rule::NoMessage => explain_no_message(out, case),
        Rule::MessageTooLong | Rule::TextTooLong => explain_too_long(out, case),
        Rule::BadType => explain_type(out, case),
        Rule::BadSize => explain_bad_size(out, case),
        Rule::BadSem | Rule::SemOutOfSet => explain_number(out, case),
        Rule::NoOperations | Rule::TooManyOperations => explain_operations(out, case),
        Rule::WouldWait | Rule::ValueRange | Rule::UndoRange => explain_trial(out, case),
        Rule::BadArgument => explain_bad_argument(out, case),
        Rule::NotAttached => explain_not_attached(out, case),
        Rule::OutOfSegment => explain_range(out, case),
        Rule::TooManyAttached => out.push_str("the caller has SHMSEG attachments, 4096\n"),
        Rule::TimedOut => explain_late(out, case),
        Rule::Ended => out.push_str(
            "the caller's thread has ended; begin, or another client's fork or clone, makes it one again\n",
        ),
        _ => Ok(()),
    }
}

fn explain_bad_size(out: &mut String, case: Case<'_>) -> Told {
    match case.call {
        Call::ShmGet { .. } => explain_size(out, case),
        _ => explain_count(out, case),
    }
}

fn explain_late(out: &mut String, case: Case<'_>) -> Told {
    let Call::SemTimedOp { timeout, .. } = case.call else {
        return Ok(());
    };
    let clock = case.space.clock();
    write!(
        out,
        "it would have to wait, and its timeout of {timeout} s at second {clock} of the clock leaves no time for that\n"
    )
}
