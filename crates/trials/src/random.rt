// A stream of numbers that a seed decides, so that every trial can be made again.
#[derive(Drop)]
pub(crate) struct Random {
    state: u64,
}

impl Random {
    pub(crate) fn new(seed: u64) -> Random {
        Random { state: seed }
    }

    // The next number: the state goes on by a fixed odd number, and is mixed.
    pub(crate) fn number(&mut self) -> u64 {
        self.state = self.state.wrapping_add(0x9e37_79b9_7f4a_7c15);
        let mixed = (self.state ^ (self.state >> 30)).wrapping_mul(0xbf58_476d_1ce4_e5b9);
        let mixed = (mixed ^ (mixed >> 27)).wrapping_mul(0x94d0_49bb_1331_11eb);
        mixed ^ (mixed >> 31)
    }

    // A number below the end, and 0 where the end is 0.
    pub(crate) fn below(&mut self, end: u16) -> u16 {
        if end == 0 {
            return 0;
        }
        (self.number() % u64::from(end)) as u16
    }

    // A place below the end, and 0 where the end is 0.
    pub(crate) fn place(&mut self, end: usize) -> usize {
        if end == 0 {
            return 0;
        }
        (self.number() % end as u64) as usize
    }

    // A number between these two, both included.
    pub(crate) fn between(&mut self, low: i16, high: i16) -> i32 {
        let spread = i32::from(high) - i32::from(low);
        let above = self.below(u16::try_from(spread).unwrap_or(0).saturating_add(1));
        i32::from(low) + i32::from(above)
    }

    // Whether one of so many equal chances came.
    pub(crate) fn one_in(&mut self, chances: u16) -> bool {
        self.below(chances) == 0
    }

    // One of these, or the other where there are none.
    pub(crate) fn pick<T: Copy>(&mut self, from: &[T], other: T) -> T {
        let place = self.place(from.len());
        from.get(place).copied().unwrap_or(other)
    }
}
