//! Numbers from a seed.

ghost use Rattle.std.specs.Prelude.{◌<◌};

/// Pseudorandom numbers (xorshift64).
#[derive(Clone, Copy)]
pub struct Random {
    state: u64,
}

impl Random {
    /// The numbers of a seed.
    pub fn new(seed: u64) -> Random {
        let mut random = Random {
            state: seed.wrapping_mul(0x9e37_79b9_7f4a_7c15) | 1,
        };
        for _ in 0..8u8 {
            random.next();
        }
        random
    }

    /// The next number.
    pub fn next(&mut self) -> u64 {
        let mut x = self.state;
        x ^= x << 13;
        x ^= x >> 7;
        x ^= x << 17;
        self.state = x;
        x
    }

    /// The next number, reduced below a limit.
    pub fn below(&mut self, limit: u64) -> u64
        requires { 0 < limit }
        ensures { result < limit }
    {
        (self.next() >> 8) % limit
    }

    /// Whether something happens that happens once in this many times; never if this is 0.
    pub fn happens(&mut self, once_in: u64) -> bool {
        once_in > 0 && self.below(once_in) == 0
    }
}
