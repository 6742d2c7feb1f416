//! Numbers that look random.

ghost use Rattle.std.specs.Prelude.{◌<◌, ◌≤◌};

/// Numbers that look random, the same for each seed (a linear congruential generator).
#[derive(Drop)]
pub struct Numbers {
    pub state: u64,
}

impl Numbers {
    /// The next number, below the limit.
    pub fn below(&mut self, limit: u32) -> u32
        requires { 1 ≤ limit }
        ensures { result < limit }
    {
        let product = self.state.wrapping_mul(6_364_136_223_846_793_005);
        self.state = product.wrapping_add(1_442_695_040_888_963_407);
        (self.state >> 33) as u32 % limit
    }
}
