//! A call that was answered, and what can be seen of it in the namespace that its event left.

ghost use Rattle.std.specs.Prelude.{◌≡◌, Some, option_map};
ghost use Rattle.ipc_history.specs.History.{History, run, with_event};
ghost use Rattle.ipc_model.specs.Step.{Event};
ghost use Rattle.call_reasons.specs.Asked.{named as named_in};
ghost use Rattle.call_reasons.specs.Cases.{entered, last_event, shown};

use crate::asked::Target;
use ipc_call::{Call, JournalRow, Kind, Memory, Perm};
use ipc_space::Space;

/// What is told may fail where an allocation does; then a part of the text may stand in the string.
pub(crate) type Told = Result<(), Memory>;

/// A call of a client, in the namespace that its event left. A refused call changes no object and no credentials, so these
/// are what the decision saw.
#[derive(Clone, Copy)]
pub struct Case<'a> {
    /// The namespace after the event.
    pub space: &'a Space,
    /// The client, counted from 0.
    pub client: u32,
    /// Its call.
    pub call: &'a Call,
}

/// An object with its kind, identifier and permissions.
#[derive(Clone, Copy, Debug)]
pub struct NamedObject {
    /// Its kind.
    pub kind: Kind,
    /// Its identifier.
    pub id: u32,
    /// Its permissions.
    pub perm: Perm,
}

/// The object that a call names; `None` where there is none now.
pub fn object_named(space: &Space, target: Target) -> Option<NamedObject>
    ensures { result ≡ named_in (run space.now) target }
{
    match target {
        Target::Id(kind, id) => {
            let perm = space.perm_of(kind, id)?;
            Some(NamedObject { kind, id, perm })
        }
        Target::Key(kind, key) => {
            let (id, perm) = space.with_key(kind, key)?;
            Some(NamedObject { kind, id, perm })
        }
    }
}

/// The latest event of a journal.
#[derive(Clone, Copy, Debug)]
pub struct LatestEvent<'a> {
    /// Its client, counted from 0.
    pub client: u32,
    /// Its call.
    pub call: &'a Call,
    /// Its answers, by turn: the rows behind that of the call.
    pub answers: &'a [JournalRow],
}

/// The latest event, as the journal has it.
pub fn latest_event(space: &Space) -> Option<LatestEvent<'_>>
    ensures { (h : History) → (e : Event) → space.now ≡ with_event h e → option_map shown result ≡ Some (entered h e) }
{
    latest_in(space.journal())
}

/// The event of the last row that has a call.
fn latest_in(rows: &[JournalRow]) -> Option<LatestEvent<'_>>
    ensures { option_map shown result ≡ last_event rows.now }
{
    let mut left = rows;
    while let Some((row, others)) = left.split_last() {
        if let JournalRow::Called { client, call, .. } = row {
            let answers = &rows[left.len()..];
            return Some(LatestEvent {
                client: *client,
                call,
                answers,
            });
        }
        left = others;
    }
    None
}
