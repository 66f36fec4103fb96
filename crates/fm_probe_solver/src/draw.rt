//! Pseudo-random numbers, the same for the same seed.

ghost use Rattle.std.specs.Prelude.{◌<◌, ◌≤◌};

/// A linear congruential generator, by Knuth's constants.
#[derive(Debug, Drop)]
pub(crate) struct Draw {
    seed: u64,
}

impl Draw {
    pub(crate) fn new(seed: u64) -> Draw {
        Draw { seed }
    }

    /// The next number, below the bound.
    pub(crate) fn below(&mut self, bound: u32) -> u32
        requires { 0 < bound }
        ensures { result < bound }
    {
        self.seed = self
            .seed
            .wrapping_mul(6_364_136_223_846_793_005)
            .wrapping_add(1_442_695_040_888_963_407);
        let high = (self.seed >> 32) as u32;
        high % bound
    }

    /// The next number from the least to the greatest.
    pub(crate) fn between(&mut self, least: u32, greatest: u32) -> u32
        requires { least ≤ greatest }
        ensures at_least { least ≤ result }
        ensures at_most { result ≤ greatest }
    {
        match (greatest - least).checked_add(1) {
            Some(bound) => least + self.below(bound),
            None => least,
        }
    }
}
