//! Numbers for made networks.

ghost use Rattle.std.specs.Prelude.{◌<◌};

/// Numbers that follow from the one that they begin with, and look like drawn by lot.
#[derive(Drop)]
pub struct Numbers {
    state: u64,
}

impl Numbers {
    /// The numbers that follow from this one.
    pub fn following(seed: u64) -> Numbers {
        Numbers { state: seed }
    }

    /// The next number, below the bound and below 2 to the power of 44.
    pub fn below(&mut self, bound: u64) -> u64
        requires { 0 < bound }
        ensures { result < bound }
    {
        self.state = self
            .state
            .wrapping_mul(6_364_136_223_846_793_005)
            .wrapping_add(1_442_695_040_888_963_407);
        (self.state >> 20) % bound
    }
}
