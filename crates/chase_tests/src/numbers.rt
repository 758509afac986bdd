//! Numbers that look random, the same ones for each seed.

/// The next one of a linear congruence.
#[derive(Drop)]
pub(crate) struct Numbers {
    state: usize,
}

impl Numbers {
    /// The numbers of the seed.
    pub(crate) fn new(seed: usize) -> Numbers {
        Numbers { state: seed }
    }

    /// The next number below the bound, which is 0 where the bound is.
    pub(crate) fn below(&mut self, bound: usize) -> usize {
        self.state = self
            .state
            .wrapping_mul(6364136223846793005)
            .wrapping_add(1442695040888963407);
        (self.state >> 33).checked_rem(bound).unwrap_or(0)
    }

    /// Whether the next number is below the part of 100.
    pub(crate) fn is_below(&mut self, part: usize) -> bool {
        self.below(100) < part
    }
}
