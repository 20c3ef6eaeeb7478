// Pseudo-random numbers from a seed: xorshift with 64 bits, written out, since the stored totals hang on each of its numbers.
ghost use Rattle.std.specs.Prelude.{◌<◌};

#[derive(Drop)]
pub struct Dice {
    state: u64,
}

impl Dice {
    // A seed of 0 would give zeros only.
    pub fn new(seed: u64) -> Dice {
        Dice { state: seed.max(1) }
    }

    pub fn roll(&mut self) -> u64 {
        let mut x = self.state;
        x ^= x << 13;
        x ^= x >> 7;
        x ^= x << 17;
        self.state = x;
        x
    }

    // A number below n, 0 if n is 0.
    pub fn below(&mut self, n: usize) -> usize
        ensures { 0 < n → result < n }
    {
        if n == 0 {
            return 0;
        }
        (self.roll() >> 11) as usize % n
    }

    pub fn byte(&mut self) -> u8 {
        (self.roll() >> 56) as u8
    }
}
