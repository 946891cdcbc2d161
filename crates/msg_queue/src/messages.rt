//! A message.

ghost use Rattle.std.specs.Prelude.{◌≡◌, pos};
ghost use Rattle.msg_queue.specs.Messages.{magnitude as magnitude_of};
ghost use Rattle.msg_queue.specs.Others.{other_type};

use ipc_call::Items;

/// A message (msgop(2)).
#[derive(Debug, Drop, PartialEq)]
pub struct Message {
    /// Its type.
    pub mtype: i64,
    /// The bytes of its text.
    pub text: Items<u8>,
}

impl Message {
    /// Whether it has another type.
    #[inline(always)]
    pub(crate) fn is_other(&self, mtype: i64) -> bool
        ensures { result ≡ other_type mtype self.now }
    {
        self.mtype != mtype
    }

    /// Whether it has another type than a message.
    pub(crate) fn is_unlike(&self, other: &Message) -> bool
        ensures { result ≡ other_type other.now.mtype self.now }
    {
        self.mtype != other.mtype
    }
}

/// The absolute value; that of `i64::MIN` counts as `i64::MAX`.
pub(crate) fn magnitude(msgtyp: i64) -> i64
    ensures { result ≡ pos (magnitude_of msgtyp) }
{
    if msgtyp == i64::MIN {
        i64::MAX
    } else {
        msgtyp.abs()
    }
}
