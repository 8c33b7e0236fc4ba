//! Numbers that look random, by a seed.

ghost use Rattle.std.specs.Prelude.{◌<◌};

/// The next number of a linear congruential generator, whose higher bits are used.
fn next(number: u32) -> u32 {
    number.wrapping_mul(1_664_525).wrapping_add(1_013_904_223)
}

/// A sequence of numbers that look random.
#[derive(Drop)]
pub(crate) struct RandomNumbers {
    last: u32,
}

impl RandomNumbers {
    /// The sequence of a seed. The first numbers of seeds that are near one another are alike, so one is left out.
    pub(crate) fn new(seed: u32) -> RandomNumbers {
        RandomNumbers { last: next(seed) }
    }

    /// The next number, which is below this bound.
    pub(crate) fn below(&mut self, bound: u32) -> u32
        requires { 0 < bound }
        ensures { result < bound }
    {
        self.last = next(self.last);
        (self.last >> 16) % bound
    }
}
