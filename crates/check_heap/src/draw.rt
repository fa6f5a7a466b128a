//! Random numbers.
ghost use Rattle.std.specs.Prelude.{◌<◌};

use rand_pcg::Pcg32;

/// The stream whose numbers are drawn.
const STREAM: u64 = 721_347_520_444_481_703;

/// Numbers that look random and follow from a seed.
#[derive(Drop)]
pub struct Draw {
    generator: Pcg32,
}

impl Draw {
    pub fn new(seed: u64) -> Self {
        Draw {
            generator: Pcg32::from_state(seed, STREAM),
        }
    }

    /// A number below the bound. It is made of the upper bits of the generator's state, and so is each row that
    /// `checks` has drawn so far.
    pub fn below(&mut self, bound: u32) -> u32
        requires { 0 < bound }
        ensures { result < bound }
    {
        self.generator.advance(1);
        ((self.generator.state() >> 33) % u64::from(bound)) as u32
    }
}
