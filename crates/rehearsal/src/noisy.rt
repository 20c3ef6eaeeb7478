// A noisy line: what is said goes out as a frame's bits, which the noise of its way spoils; and the line counts.
ghost use Rattle.std.specs.Prelude.{◌≡◌};
ghost use Rattle.bits.specs.Heard.{Got, heard_of};
ghost use Rattle.text.specs.Noise.{behind};
ghost use Rattle.rehearsal.specs.Noisy.{Crosses, wrong_in, counted_forth, counted_back, new_line, Forth, Back};

use frame::Radio;
use link::TheLink;
use text::{FRAME, Noise};
use transfer::sides::Line;

// What was counted: parts that the ship said, payloads that the station heard, answers that it said, payloads that the ship heard, and
// the bits that were wrong in what arrived, both ways. A count that reaches the greatest number of 64 bits stays there.
#[derive(Clone, Copy, PartialEq, Eq, Debug, Default)]
pub struct Counts {
    pub parts: u64,
    pub below: u64,
    pub answers: u64,
    pub above: u64,
    pub wrong: u64,
}

// p: each bit is changed with probability p in 65,536.
#[derive(Clone, Copy)]
pub struct Noisy {
    pub p: u32,
    pub forth: Noise,
    pub back: Noise,
    pub counts: Counts,
}

// What came of something that was said: what is heard, and how many bits were wrong. The default is that nothing arrives.
#[derive(Clone, Copy, Default)]
struct Crossing {
    heard: Option<[u8; 221]>,
    wrong: u64,
}

// A payload on its way. (A frame's bits are bits behind the noise too, so hearing refuses none.)
#[tactic(auto, using(crate::proofs::Arriving::arrives_in_bits))]
fn cross(p: u32, noise: &mut Noise, said: &[u8; 221]) -> Crossing
    ensures heard { Crosses p noise.old.state (Got said.now) (heard_of result.heard) }
    ensures wrong { result.wrong ≡ wrong_in p noise.old.state (Got said.now) }
    ensures noise { noise.new.state ≡ behind 4092 noise.old.state }
{
    let mut bits = [0; FRAME];
    <TheLink as Radio>::send(said, &mut bits);
    match noise.spoil(p, &mut bits) {
        Some(changed) => Crossing {
            heard: <TheLink as Radio>::hear(&bits).ok().flatten(),
            wrong: changed as u64,
        },
        None => Crossing::default(),
    }
}

// An answer on its way, or nothing, which takes as many draws.
fn cross_any(p: u32, noise: &mut Noise, said: &Option<[u8; 221]>) -> Crossing
    ensures heard { Crosses p noise.old.state (heard_of said.now) (heard_of result.heard) }
    ensures wrong { result.wrong ≡ wrong_in p noise.old.state (heard_of said.now) }
    ensures noise { noise.new.state ≡ behind 4092 noise.old.state }
{
    match said {
        Some(payload) => cross(p, noise, payload),
        None => {
            noise.pass(FRAME);
            Crossing::default()
        }
    }
}

impl Counts {
    fn forth(&mut self, said: &[u8; 221], crossing: &Crossing)
        ensures { self.new ≡ counted_forth self.old (Got said.now) crossing.now.wrong (heard_of crossing.now.heard) }
    {
        self.parts = self.parts.saturating_add(u64::from(said[0] == 1));
        self.below = self
            .below
            .saturating_add(u64::from(crossing.heard.is_some()));
        self.wrong = self.wrong.saturating_add(crossing.wrong);
    }

    fn back(&mut self, said: &Option<[u8; 221]>, crossing: &Crossing)
        ensures { self.new ≡ counted_back self.old (heard_of said.now) crossing.now.wrong (heard_of crossing.now.heard) }
    {
        self.answers = self.answers.saturating_add(u64::from(said.is_some()));
        self.above = self
            .above
            .saturating_add(u64::from(crossing.heard.is_some()));
        self.wrong = self.wrong.saturating_add(crossing.wrong);
    }
}

impl Noisy {
    // The noise of the way forth begins with the seed, that of the way back with the number behind it.
    pub fn new(seed: u64, p: u32) -> Noisy
        ensures { result ≡ new_line seed p }
    {
        Noisy {
            p,
            forth: Noise::new(seed),
            back: Noise::new(seed.wrapping_add(1)),
            counts: Counts::default(),
        }
    }
}

impl Line for Noisy {
    ghost forth = { Forth };

    ghost back = { Back };

    fn down(&mut self, said: &[u8; 221]) -> Option<[u8; 221]> {
        let crossing = cross(self.p, &mut self.forth, said);
        self.counts.forth(said, &crossing);
        crossing.heard
    }

    fn up(&mut self, said: &Option<[u8; 221]>) -> Option<[u8; 221]> {
        let crossing = cross_any(self.p, &mut self.back, said);
        self.counts.back(said, &crossing);
        crossing.heard
    }
}
