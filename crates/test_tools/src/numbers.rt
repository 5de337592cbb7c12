//! Random numbers, the same at each run.
ghost use Rattle.std.specs.Prelude.{◌≡◌, ◌<◌, ◌+◌, ◌*◌, ◌/◌, ◌%◌, ◌^◌};

/// A linear congruential generator (Knuth's MMIX constants), its upper 31 bits.
#[derive(Drop)]
pub struct Random {
    pub state: u64,
}

impl Random {
    /// The next number below a bound that is not 0.
    pub fn below(&mut self, bound: u64) -> u64
        requires { 0 < bound }
        ensures state { self.new.state ≡ (self.old.state * 6364136223846793005 + 1442695040888963407) % 2 ^ 64 }
        ensures number { result ≡ self.new.state / 2 ^ 33 % bound }
        ensures below { result < bound }
    {
        let next = self.state.wrapping_mul(6_364_136_223_846_793_005);
        self.state = next.wrapping_add(1_442_695_040_888_963_407);
        (self.state >> 33) % bound
    }
}
