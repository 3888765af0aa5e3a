//! Numbers by chance, the same at each run from one seed: splitmix64 by Steele, Lea and Flood.
ghost use Rattle.std.specs.Prelude.{◌≤◌};

/// Where a row of numbers by chance stands.
#[derive(Clone, Copy)]
pub struct Random {
    state: u64,
}

impl Random {
    /// The row of the seed.
    pub fn new(seed: u64) -> Random {
        Random { state: seed }
    }

    /// The next number of the row.
    pub fn next(&mut self) -> u64 {
        self.state = self.state.wrapping_add(0x9e37_79b9_7f4a_7c15);
        let first = (self.state ^ (self.state >> 30)).wrapping_mul(0xbf58_476d_1ce4_e5b9);
        let second = (first ^ (first >> 27)).wrapping_mul(0x94d0_49bb_1331_11eb);
        second ^ (second >> 31)
    }

    /// A number below this one, 0 where this is 0.
    pub fn below(&mut self, end: u64) -> u64
        ensures { result ≤ end }
    {
        if end == 0 {
            return 0;
        }
        self.next() % end
    }

    /// A number below this one, 0 where this is 0, of few digits as often as of many.
    pub fn spread(&mut self, end: u64) -> u64
        ensures { result ≤ end }
    {
        if end == 0 {
            return 0;
        }
        let digits = self.below(60) as u32;
        (self.next() >> digits.min(60)) % end
    }

    /// Another row, of the next number as its seed.
    pub fn other(&mut self) -> Random {
        Random::new(self.next())
    }
}
