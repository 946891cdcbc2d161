//! A value that a call or an answer carries apart.

ghost use Rattle.std.specs.Prelude.{◌≡◌, IfOk};

use crate::replies::Memory;
use std::alloc::Global;
use std::marker::Model;

/// A value in memory of its own, so that what carries it stays small: calls and answers are moved often, and are seldom ones
/// with credentials or a status. Two of them are equal where their values are.
#[derive(Debug, Drop)]
pub struct Boxed<T> {
    value: Box<T>,
}

impl<T> Model for Boxed<T> {
    ghost Value = { T };

    ghost view = { λ boxed. boxed.value.value };
}

impl<T: Drop> Boxed<T> {
    /// The value, in memory that is made for it. The error comes only where an allocation fails.
    pub fn new(alloc: Global, value: T) -> Result<Boxed<T>, Memory>
        ensures { IfOk result (λ boxed. boxed ≡ value) }
    {
        let value = Box::new(alloc, value)?;
        Ok(Boxed { value })
    }
}

impl<T> Boxed<T> {
    /// The value.
    pub fn get(&self) -> &T
        ensures { result.now ≡ self.now }
    {
        &self.value
    }
}

impl<T: PartialEq> PartialEq for Boxed<T> {
    ghost eq = { T.eq };

    ghost laws = { T.laws };

    fn eq(&self, other: &Boxed<T>) -> bool {
        *self.value == *other.value
    }
}
