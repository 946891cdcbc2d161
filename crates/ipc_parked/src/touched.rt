// The waiting calls that the grant of a call touches: no other can have become ready by it.

ghost use Rattle.std.specs.Prelude.{◌≡◌, [], true, false, filter, slice_get, IfNone, IfSome};
ghost use Rattle.std.specs.Option.{option_map};
ghost use Rattle.ipc_parked.specs.Parked.{waiting};
ghost use Rattle.ipc_parked.specs.Touched.{Covers, is_touched, may_end};

use crate::parked::Parked;
use ipc_call::{Call, Kind};

/// Where the calls wait that the grant of a call may make ready.
#[derive(Clone, Copy, Debug)]
pub enum Touched {
    /// Nowhere.
    Nothing,
    /// On this object.
    Object { kind: Kind, id: u32 },
}

impl Touched {
    /// What the grant of the call touches, whatever the state. None for exit and kill, which may undo something on several
    /// sets.
    pub fn by(call: &Call) -> Option<Touched>
        ensures covers { IfSome result (λ touched. Covers call.now touched) }
        ensures none { IfNone result (may_end call.now ≡ true) }
    {
        match call {
            Call::MsgSnd { id, .. } | Call::MsgRcv { id, .. } => Some(Touched::Object {
                kind: Kind::Queue,
                id: *id,
            }),
            Call::SemOp { id, .. }
            | Call::SemTimedOp { id, .. }
            | Call::SetVal { id, .. }
            | Call::SetAll { id, .. } => Some(Touched::Object {
                kind: Kind::Sems,
                id: *id,
            }),
            Call::IpcSet { kind, id, .. } | Call::IpcRmid { kind, id } => Some(Touched::Object {
                kind: *kind,
                id: *id,
            }),
            Call::Exit | Call::Kill { .. } => None,
            _ => Some(Touched::Nothing),
        }
    }
}

impl Parked {
    /// Whether a waiting call may have been touched. This is known without a search, so it is also true where none was, but
    /// one waits, or has waited since last none did, on another object of the kind whose identifier leaves the same rest
    /// when it is divided by 64. Takes no memory.
    #[inline(always)]
    pub fn may_be_touched(&self, touched: Touched) -> bool
        ensures { result ≡ false → filter (is_touched touched) (waiting self.now) ≡ [] }
    {
        match touched {
            Touched::Nothing => false,
            Touched::Object { kind, id } => self.may_wait_on(kind, id),
        }
    }

    /// The client of the call at an index, from 0, in order of arrival among those that were touched. Those that wait
    /// elsewhere cost nothing. Takes no memory.
    pub fn nth_touched(&self, touched: Touched, index: usize) -> Option<u32>
        ensures { result ≡ option_map (λ w. w.client) (slice_get (filter (is_touched touched) (waiting self.now)) index) }
    {
        match touched {
            Touched::Nothing => None,
            Touched::Object { kind, id } => self.client_on(kind, id, index),
        }
    }
}
