//! What refuses calls on objects of any kind.

use crate::asked::{Target, asked_by, controlled_by};
use crate::calls::{key_of, object_of, word_of};
use crate::cases::{Case, NamedObject, Told, object_named};
use crate::changes::{print_changes, print_changes_to_control};
use crate::denials::{Denial, denial_of};
use ipc_call::{Call, Kind, Mode, is_read_only};
use ipc_creds::Creds;
use ipc_perm::Want;
use number_text::print_number;
use perm_words::{
    Standing, kind_name, print_class, print_mode, print_object, rights_in, rights_name,
};
use std::fmt::Write;

/// Tells which permission bits decided, and what would have allowed it.
pub(crate) fn explain_bits(out: &mut String, case: Case<'_>) -> Told {
    let Some(asked) = asked_by(case.call) else {
        return Ok(());
    };
    let (Some(object), Some(creds)) = (
        object_named(case.space, asked.target),
        case.space.creds_of(case.client),
    ) else {
        return Ok(());
    };
    if let Some(denial) = denial_of(creds, &object.perm, asked.want) {
        print_asking(out, case.call)?;
        out.push_str(" to ")?;
        out.push_str(rights_in_words(denial.want))?;
        out.push_str(asking_detail(case.call))?;
        print_denial(out, creds, &object, denial, Some(case.call))?;
    }
    Ok(())
}

/// Appends, behind what asks for rights, which the caller's class gets; then how the caller is in this class, the object, and what would
/// allow the rights.
pub(crate) fn print_denial(
    out: &mut String,
    creds: &Creds,
    object: &NamedObject,
    denial: Denial,
    call: Option<&Call>,
) -> Told {
    let NamedObject { kind, id, perm } = object;
    out.push_str(gets(denial.standing))?;
    out.push_str(rights_name(rights_in(denial.bits)))?;
    out.push_str("\n")?;
    print_class(out, creds, perm)?;
    out.push_str("\n")?;
    print_object(out, *kind, *id, perm)?;
    out.push_str("\n")?;
    print_changes(out, creds, perm, denial.want, call)
}

/// What stands before the rights of the class that decides.
fn gets(standing: Standing) -> &'static str {
    match standing {
        Standing::Owner | Standing::Creator => "; the owner gets ",
        Standing::OwnersGroup | Standing::CreatorsGroup => "; the group gets ",
        Standing::Other => "; others get ",
    }
}

/// Appends what of the call asks.
fn print_asking(out: &mut String, call: &Call) -> Told {
    let word = word_of(call);
    match call {
        Call::MsgGet { flags, .. } | Call::SemGet { flags, .. } | Call::ShmGet { flags, .. } => {
            out.push_str("the bits ")?;
            print_mode(out, Mode::from_low_bits(*flags).bits())?;
            out.push_str(" in the flags of ")?;
            out.push_str(word)?;
            out.push_str(" ask")
        }
        Call::ShmAt { flags, .. } => {
            let with = if is_read_only(*flags) {
                "with"
            } else {
                "without"
            };
            write!(out, "shmat {with} SHM_RDONLY asks")
        }
        Call::SemOp { .. } | Call::SemTimedOp { .. } => {
            write!(out, "the operations of {word} ask")
        }
        _ => {
            out.push_str(word)?;
            out.push_str(" asks")
        }
    }
}

/// What of the call asks for which right, where it may ask for several.
fn asking_detail(call: &Call) -> &'static str {
    match call {
        Call::MsgGet { .. } | Call::SemGet { .. } | Call::ShmGet { .. } => {
            " (0444 to read, 0222 to write)"
        }
        Call::SemOp { .. } | Call::SemTimedOp { .. } => " (one of 0 to read, any other to write)",
        _ => "",
    }
}

/// Rights in words.
pub(crate) fn rights_in_words(want: Want) -> &'static str {
    match (want.read, want.alter) {
        (true, true) => "read and to write",
        (true, false) => "read",
        (false, true) => "write",
        (false, false) => "do nothing",
    }
}

/// Tells whose the object is that only its owner or creator may set and remove.
pub(crate) fn explain_control(out: &mut String, case: Case<'_>) -> Told {
    let Some((kind, id)) = controlled_by(case.call) else {
        return Ok(());
    };
    let (Some(NamedObject { perm, .. }), Some(creds)) = (
        object_named(case.space, Target::Id(kind, id)),
        case.space.creds_of(case.client),
    ) else {
        return Ok(());
    };
    let (user, word) = (creds.euid(), word_of(case.call));
    write!(
        out,
        "user {user} is neither its owner nor its creator, and {word} asks for no permission bit\n"
    )?;
    print_object(out, kind, id, &perm)?;
    out.push_str("\n")?;
    print_changes_to_control(out, creds, &perm)
}

/// Tells that the identifier names no object.
pub(crate) fn explain_bad_id(out: &mut String, case: Case<'_>) -> Told {
    let Some((kind, id)) = object_of(case.call) else {
        return Ok(());
    };
    out.push_str("there is no ")?;
    print_named(out, kind, id)?;
    out.push_str(" now\n")
}

/// Appends the kind and the identifier of an object.
pub(crate) fn print_named(out: &mut String, kind: Kind, id: u32) -> Told {
    out.push_str(kind_name(kind))?;
    out.push_str(" ")?;
    print_number(out, u64::from(id))
}

/// Tells that a key has no object.
pub(crate) fn explain_no_key(out: &mut String, case: Case<'_>) -> Told {
    let Some((kind, key)) = key_of(case.call) else {
        return Ok(());
    };
    let kind = kind_name(kind);
    write!(
        out,
        "no {kind} has the key 0x{key:x}, and the flags lack IPC_CREAT (01000), which would create one\n"
    )
}

/// Tells which object has the key of an exclusive get.
pub(crate) fn explain_key_exists(out: &mut String, case: Case<'_>) -> Told {
    let Some((kind, key)) = key_of(case.call) else {
        return Ok(());
    };
    let Some(object) = object_named(case.space, Target::Key(kind, key)) else {
        return Ok(());
    };
    out.push_str(
        "the flags have both IPC_CREAT (01000) and IPC_EXCL (02000), which ask for a key that no object has\n",
    )?;
    print_object(out, object.kind, object.id, &object.perm)?;
    out.push_str("\n")
}

/// Tells how many slots the kind has.
pub(crate) fn explain_no_slot(out: &mut String, case: Case<'_>) -> Told {
    let Some((kind, _)) = key_of(case.call) else {
        return Ok(());
    };
    let limits = case.space.limits();
    let slots = match kind {
        Kind::Queue => limits.queues,
        Kind::Sems => limits.sets,
        Kind::Segment => limits.segments,
    };
    let kind = kind_name(kind);
    write!(
        out,
        "each of the {slots} slots for a {kind} holds one or is used up; this isn't disk space\n"
    )
}

/// Tells why the caller may not raise msg_qbytes.
pub(crate) fn explain_resource(out: &mut String, case: Case<'_>) -> Told {
    let Call::IpcSet {
        qbytes: Some(qbytes),
        ..
    } = case.call
    else {
        return Ok(());
    };
    let most = case.space.limits().msg_mnb;
    write!(
        out,
        "msg_qbytes {qbytes} is above MSGMNB {most}, which asks for CAP_SYS_RESOURCE\n"
    )
}

/// Tells why msg_qbytes doesn't fit.
pub(crate) fn explain_bad_argument(out: &mut String, case: Case<'_>) -> Told {
    let Some((kind, id)) = object_of(case.call) else {
        return Ok(());
    };
    out.push_str("msg_qbytes is of queues alone, and this names ")?;
    print_named(out, kind, id)?;
    out.push_str("\n")
}
