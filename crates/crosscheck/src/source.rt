// A fixed sequence of 64-bit numbers with no pattern to speak of (splitmix64).
ghost use Rattle.std.specs.Prelude.{◌<◌};

#[derive(Drop)]
pub(crate) struct Source {
    state: u64,
}

impl Source {
    pub(crate) fn new() -> Source {
        Source { state: 0 }
    }

    pub(crate) fn draw(&mut self) -> u64 {
        self.state = self.state.wrapping_add(0x9e37_79b9_7f4a_7c15);
        let x = self.state;
        let x = (x ^ (x >> 30)).wrapping_mul(0xbf58_476d_1ce4_e5b9);
        let x = (x ^ (x >> 27)).wrapping_mul(0x94d0_49bb_1331_11eb);
        x ^ (x >> 31)
    }

    pub(crate) fn below(&mut self, end: u64) -> u64
        requires { 0 < end }
        ensures { result < end }
    {
        self.draw() % end
    }

    pub(crate) fn coin(&mut self) -> bool {
        self.draw() % 2 == 0
    }
}
