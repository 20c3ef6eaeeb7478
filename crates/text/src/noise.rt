// The noise that spoils lines. The probability p belongs to a line, and both of its ways share it, so it is no part of a way's noise.
ghost use Rattle.std.specs.Prelude.{◌≡◌, ◌<◌, ◌≤◌, length, if◌then◌else◌, nat_lt};
ghost use Rattle.bits.specs.Distance.{differ as differing, distance};
ghost use Rattle.text.specs.Noise.{stepped, stirred, output, drawn, advanced, other, flipped, behind};
ghost use Rattle.text.specs.Spoiling.{Spoiled};

// The generator SplitMix64.
#[derive(Clone, Copy, PartialEq, Eq, Debug)]
pub struct Noise {
    pub state: u64,
}

// A number mixed with its upper bits, times a factor.
fn stir(z: u64, shift: u32, factor: u64) -> u64
    requires { shift < 64 }
    ensures { result ≡ stirred shift factor z }
{
    (z ^ (z >> shift)).wrapping_mul(factor)
}

// The generator's output of a state.
#[tactic(auto, unfolding(crate::specs::Noise::output))]
fn mixed(state: u64) -> u64
    ensures { result ≡ output state }
{
    let first = stir(state, 30, 13787848793156543929);
    let second = stir(first, 27, 10723151780598845931);
    second ^ (second >> 31)
}

// Whether two numbers differ, as 0 or 1.
fn differ(x: u8, y: u8) -> usize
    ensures value { result ≡ differing x y }
    ensures bound { result ≤ 1 }
{
    usize::from(x != y)
}

impl Noise {
    pub fn new(seed: u64) -> Noise
        ensures { result.state ≡ seed }
    {
        Noise { state: seed }
    }

    fn step(&mut self)
        ensures { self.new.state ≡ stepped self.old.state }
    {
        self.state = self.state.wrapping_add(11400714819323198485);
    }

    // The next draw of 16 bits.
    pub fn draw(&mut self) -> u16
        ensures value { result ≡ drawn self.old.state }
        ensures state { self.new.state ≡ stepped self.old.state }
    {
        self.step();
        (mixed(self.state) >> 48) as u16
    }

    // One bit, changed where its draw is below p.
    fn flip_one(&mut self, p: u32, bit: u8) -> u8
        ensures value { result ≡ (if nat_lt (drawn self.old.state) p then other bit else bit) }
        ensures state { self.new.state ≡ stepped self.old.state }
    {
        if u32::from(self.draw()) < p {
            1u8.saturating_sub(bit)
        } else {
            bit
        }
    }

    // Each bit, changed where its draw is below p; the answer is how many are changed.
    #[tactic(auto, using(crate::proofs::Draws::advanced_more, crate::proofs::Draws::advanced_none, crate::proofs::Draws::halfway_more, crate::proofs::Draws::halfway_all, crate::proofs::Draws::changes_more, crate::proofs::Draws::changes_all))]
    fn flip(&mut self, p: u32, bits: &mut [u8]) -> usize
        ensures value { result ≡ distance bits.old bits.new }
        ensures bits { bits.new ≡ flipped p self.old.state bits.old }
        ensures state { self.new.state ≡ advanced (length bits.old) self.old.state }
    {
        let mut changed = 0;
        for x in bits.iter_mut() {
            let y = self.flip_one(p, *x);
            changed += differ(*x, y);
            *x = y;
        }
        changed
    }

    #[tactic(auto, using(crate::proofs::Draws::advanced_more, crate::proofs::Draws::advanced_none))]
    fn skip(&mut self, n: usize)
        ensures { self.new.state ≡ advanced n self.old.state }
    {
        for _ in 0..n {
            self.step();
        }
    }

    // Takes the draws of a line of n digits on which nothing is sent.
    pub fn pass(&mut self, n: usize)
        ensures { self.new.state ≡ behind n self.old.state }
    {
        self.step();
        self.skip(n);
    }

    // Spoils the bits of a line: nothing arrives where the line's draw is below 4,096, and then the bits stay as they were; else
    // each bit is changed where its draw is below p, and the answer is how many are changed. The draws are as many in either case.
    pub fn spoil(&mut self, p: u32, bits: &mut [u8]) -> Option<usize>
        ensures bits { Spoiled p self.old.state bits.old bits.new result }
        ensures state { self.new.state ≡ behind (length bits.old) self.old.state }
    {
        if self.draw() < 4096 {
            self.skip(bits.len());
            return None;
        }
        Some(self.flip(p, bits))
    }
}
