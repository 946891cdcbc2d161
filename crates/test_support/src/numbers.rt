//! Numbers in no visible order, the same on every run.

ghost use Rattle.std.specs.Prelude.{◌<◌};

use rand_core::utils::NextWord;
use rand_pcg::Pcg32;

/// The numbers of one generator.
#[derive(Drop)]
pub struct Numbers {
    generator: Pcg32,
}

impl Numbers {
    /// From a seed on.
    pub fn new(seed: u64) -> Numbers {
        Numbers {
            generator: Pcg32::new(seed, 1),
        }
    }

    /// The next number below a limit, 0 below none.
    pub fn below(&mut self, limit: u32) -> u32
        ensures { 0 < limit → result < limit }
    {
        self.generator.next_word() % limit.max(1)
    }

    /// Whether the next of so many cases is the first.
    pub fn once_in(&mut self, cases: u32) -> bool {
        self.below(cases) == 0
    }
}
