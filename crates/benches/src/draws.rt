/// Numbers that look drawn by chance, and are the same in each run: a linear congruential generator, with Knuth's
/// constants for MMIX (The Art of Computer Programming, volume 2, 3.3.4).
#[derive(Clone, Copy)]
pub struct Draws {
    state: u64,
}

impl Draws {
    pub fn new() -> Draws {
        Draws { state: 1 }
    }

    /// The upper half of the next state.
    pub fn next(&mut self) -> u32 {
        self.state = self
            .state
            .wrapping_mul(6_364_136_223_846_793_005)
            .wrapping_add(1_442_695_040_888_963_407);
        (self.state >> 32) as u32
    }
}
