//! Numbers that look drawn and are the same in each run.

#[derive(Drop)]
pub struct Draw {
    state: u64,
}

impl Draw {
    pub fn new(seed: u64) -> Draw {
        let mut draw = Draw { state: seed };
        let _first = draw.below(2);
        draw
    }

    /// The next number, from 0 to below that.
    pub fn below(&mut self, end: u64) -> u64 {
        self.state = self
            .state
            .wrapping_mul(6_364_136_223_846_793_005)
            .wrapping_add(1_442_695_040_888_963_407);
        (self.state >> 33) % end.max(1)
    }
}
