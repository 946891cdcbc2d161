// On which objects a call may wait, known without a look-up.

ghost use Rattle.std.specs.Prelude.{◌≡◌, false, replicate, slice_get, slice_set};

use std::marker::Model;

/// How many marks there are.
pub(crate) const MARKED: usize = 64;

/// A mark for each number below 64.
#[derive(Debug, Drop)]
pub(crate) struct Marks {
    marks: [bool; MARKED],
}

impl Model for Marks {
    ghost use Rattle.std.specs.Prelude.{Bool, List};

    ghost Value = { List Bool };

    ghost view = { λ m. m.marks };
}

impl Marks {
    /// None is set.
    pub(crate) fn none() -> Marks
        ensures { result ≡ replicate 64 false }
    {
        Marks {
            marks: [false; MARKED],
        }
    }

    /// The mark of a number, None where it has none.
    #[inline(always)]
    pub(crate) fn get(&self, number: u32) -> Option<bool>
        ensures { result ≡ slice_get self.now number }
    {
        self.marks.get(number as usize).copied()
    }

    /// Sets the mark so, where there is one.
    pub(crate) fn set(&mut self, number: u32, waits: bool)
        ensures { self.new ≡ slice_set self.old number waits }
    {
        let at = number as usize;
        if at < MARKED {
            self.marks[at] = waits;
        }
    }
}
