//! A box whose address can be handed out.
ghost use Rattle.std.specs.Prelude.{◌≡◌, box_value};
ghost use Rattle.std.specs.Box.Ownership.{box_owns};
ghost use Rattle.std.specs.declared.alloc.Global.{Global as GlobalValue};
ghost use Rattle.std.specs.contracts.impls.GlobalAllocator.TheImpl.{ghosts as heap};

use std::marker::Model;

/// What was a box: the address, with the value there and the right to free it.
pub(crate) struct Loose<T> {
    pub(crate) at: *mut T,
    pub(crate) ghost alloc: { GlobalValue },
    pub(crate) ghost value: { T },
}

impl<T> Model for Loose<T> {
    ghost also_owns = { λ l. box_owns (heap.dealloc_token l.alloc) T.row l.at l.value };
}

/// Lets go of the box, and keeps what it owns.
pub(crate) fn loosen<T: Drop>(whole: Box<T>) -> Loose<T>
    ensures { result.value ≡ box_value whole }
{
    Loose {
        at: Box::into_raw(whole),
    }
}
