//! A list that a call carries.

ghost use Rattle.std.specs.Prelude.{◌≡◌, IfOk, length, take};

use crate::replies::Memory;
use std::alloc::Global;
use std::marker::Model;

/// A list of plain values that a call or an answer carries: the bytes of a text, operations, groups.
/// Two of them are equal where their lists are.
#[derive(Debug, Drop)]
pub struct Items<T> {
    items: Vec<T>,
}

impl<T> Model for Items<T> {
    ghost use Rattle.std.specs.Prelude.{List};

    ghost Value = { List T };

    ghost view = { λ list. list.items.items };
}

impl<T> Items<T> {
    /// The list of a vector's elements.
    pub fn new(items: Vec<T>) -> Items<T>
        ensures { result ≡ items.items }
    {
        Items { items }
    }

    /// The elements in a vector.
    pub fn into_vec(self) -> Vec<T>
        ensures { result.items ≡ self }
    {
        let Items { items } = self;
        items
    }

    /// The elements.
    pub fn as_slice(&self) -> &[T]
        ensures { result.now ≡ self.now }
    {
        self.items.as_slice()
    }

    /// The number of elements.
    pub fn len(&self) -> usize
        ensures { result ≡ length self.now }
    {
        self.items.len()
    }
}

impl<T> Items<T> {
    /// What allocates for it.
    pub(crate) fn alloc(&self) -> Global {
        *self.items.allocator()
    }
}

impl<T: Drop> Items<T> {
    /// Keeps the first `len` elements, or all where there are fewer. It doesn't allocate.
    pub fn truncate(&mut self, len: usize)
        ensures { self.new ≡ take len self.old }
    {
        self.items.truncate(len);
    }
}

impl<T: Copy> Items<T> {
    /// A copy. The error comes only where an allocation fails.
    pub fn copy(&self) -> Result<Items<T>, Memory>
        ensures { IfOk result (λ copied. copied ≡ self.now) }
    {
        Ok(Items::new(Vec::from_slice(self.alloc(), self.items.as_slice())?))
    }
}

impl<T: PartialEq> PartialEq for Items<T> {
    ghost use Rattle.std.specs.Cmp.Lexicographic.{pointwise, lists_per};

    ghost eq = { λ x y. pointwise T.eq x y };

    ghost laws = { lists_per T.laws };

    fn eq(&self, other: &Items<T>) -> bool {
        self.items == other.items
    }
}
