ghost use Rattle.std.specs.Prelude.{◌≤◌, ◌<◌};

// Numbers by a linear congruence, of which the upper bits are drawn.
#[derive(Drop)]
pub struct Draws {
    pub seed: u64,
}

impl Draws {
    pub fn below(&mut self, bound: u64) -> u64
        requires { 1 ≤ bound }
        ensures { result < bound }
    {
        self.seed = self
            .seed
            .wrapping_mul(6_364_136_223_846_793_005)
            .wrapping_add(1_442_695_040_888_963_407);
        (self.seed >> 33) % bound
    }
}
