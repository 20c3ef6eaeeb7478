// How many lines of each kind there were, and how many of them agree.
use std::fmt;

#[derive(Clone, Copy)]
pub enum Kind {
    OuterEncode,
    OuterRepair,
    InnerEncode,
    InnerDecode,
    FrameSend,
    FrameHear,
}

impl Kind {
    // All kinds, in the order of their numbers, written out since no derive lists them.
    const ALL: [Kind; 6] = [
        Kind::OuterEncode,
        Kind::OuterRepair,
        Kind::InnerEncode,
        Kind::InnerDecode,
        Kind::FrameSend,
        Kind::FrameHear,
    ];
}

impl fmt::Display for Kind {
    fn fmt<W: fmt::Write>(&self, f: &mut fmt::Formatter<W>) -> fmt::Result {
        f.write_str(match self {
            Kind::OuterEncode => "outer encode",
            Kind::OuterRepair => "outer repair",
            Kind::InnerEncode => "inner encode",
            Kind::InnerDecode => "inner decode",
            Kind::FrameSend => "frame send",
            Kind::FrameHear => "frame hear",
        })
    }
}

// Counts stay at the greatest number, since nothing bounds the input: so no sum of the library's.
#[derive(Clone, Copy, Default)]
struct Tally {
    agree: u64,
    all: u64,
}

impl Tally {
    fn count(&mut self, good: bool) {
        self.all = self.all.saturating_add(1);
        self.agree = self.agree.saturating_add(u64::from(good));
    }

    fn apart(&self) -> u64 {
        self.all.saturating_sub(self.agree)
    }
}

impl fmt::Display for Tally {
    fn fmt<W: fmt::Write>(&self, f: &mut fmt::Formatter<W>) -> fmt::Result {
        write!(f, "{} of {} agree", self.agree, self.all)
    }
}

// A tally for each kind, at the place of its number.
#[derive(Clone, Copy, Default)]
pub struct Report {
    tallies: [Tally; 6],
}

impl Report {
    pub fn count(&mut self, kind: Kind, good: bool) {
        self.tallies[kind as usize].count(good);
    }

    pub fn show(&self, rt: &HostRuntime) -> anyhow::Result<()> {
        for (kind, tally) in Kind::ALL.iter().zip(&self.tallies) {
            println!(rt; "{kind} {tally}")?;
        }
        let apart = self
            .tallies
            .iter()
            .fold(0u64, |apart, tally| apart.saturating_add(tally.apart()));
        if apart == 0 {
            rt.println("all agree")?;
        } else {
            println!(rt; "{apart} disagree")?;
        }
        Ok(())
    }
}
