// A rehearsal: a ship with its file, a station and a noisy line between them; opening it, playing its rounds, and what there is to report of it.
ghost use Rattle.std.specs.Prelude.{◌≡◌, ◌<◌, ◌≤◌, true, ◌⊎◌, length, is_some, IfSome, MatchResult, ◌≢◌};
ghost use Rattle.bits.specs.Refusals.{number as code};
ghost use Rattle.transfer_theory.specs.Receiver.{complete, handed_count, handed_into};
ghost use Rattle.transfer.specs.Memory.{filled};
ghost use Rattle.transfer.specs.Shapes.{InRoom, Shaped};
ghost use Rattle.transfer.specs.Stations.{count_of};
ghost use Rattle.rehearsal.specs.Rehearsed.{Rehearsed, GoesOn, report_of};

use super::noisy::{Counts, Noisy};
use bits::Refusal;
use driver::{Outcome, play_on};
use link::{TheGround, TheLink};
use std::marker::Model;
use transfer::ship::LONGEST;
use transfer::sides::{Ship, Station};

#[derive(Drop)]
pub struct Rehearsal<'a> {
    link: TheLink,
    station: TheGround<'a>,
    line: Noisy,
    outcome: Outcome,
}

// A clause sees all that stands on the table; the outcome says of the ship what it was told.
impl<'a> Model for Rehearsal<'a> {
    ghost use Rattle.std.specs.Prelude.{◌≡◌};
    ghost use Rattle.rehearsal.specs.Rehearsed.{Table};

    ghost Value = { Table };

    ghost view = { λ r. record { sender = r.link; receiver = r.station; line = r.line; rounds = r.outcome.rounds; first = r.outcome.complete } };

    ghost invariant = { λ r. r.outcome.told ≡ r.link.done };
}

// What came of the rounds, and what the line counted in them.
#[derive(Clone, Copy, PartialEq, Eq, Debug)]
pub struct Report {
    pub outcome: Outcome,
    pub counts: Counts,
}

impl<'a> Rehearsal<'a> {
    // The file of this number, with no round played yet. A file of more than 214,000 bytes is refused with 3, memory of another length than a station's with 4.
    // (No struct holds the seed and p: it would be made only to be taken apart in the next call.)
    #[tactic(auto, using(crate::proofs::Folded::begun))]
    pub fn open(
        mut link: TheLink,
        memory: &'a mut [u8],
        number: u8,
        content: &[u8],
        seed: u64,
        p: u32,
    ) -> Result<Rehearsal<'a>, Refusal>
        ensures { MatchResult result (λ x. Rehearsed number content.now seed p x) (λ e. ((code e ≡ 3) × (214000 < length content.now)) ⊎ ((code e ≡ 4) × (length memory.old ≢ 215000))) }
    {
        link.vessel.load(number, content)?;
        let station = TheGround::open(number, memory)?;
        Ok(Rehearsal {
            link,
            station,
            line: Noisy::new(seed, p),
            outcome: Outcome::default(),
        })
    }

    // Plays on until the ship is done or so many rounds were played in all.
    pub fn go_on(&mut self, budget: u64)
        ensures rehearsed { GoesOn self.old self.new }
        ensures budget { self.old.rounds ≤ budget → self.new.rounds ≤ budget }
        ensures stopped { self.new.rounds < budget → self.new.sender.done ≡ true }
    {
        self.outcome = play_on(
            &mut self.link,
            &mut self.station,
            &mut self.line,
            self.outcome,
            budget,
        );
    }

    // How many parts the station has. The clause shape says what any station keeps.
    pub fn parts_there(&self) -> usize
        ensures value { result ≡ filled self.now.receiver.slots }
        ensures within { result ≤ 1000 }
        ensures shape { Shaped self.now.receiver }
    {
        self.station.parts_there()
    }

    // Writes the file, if and only if the station is complete, and says how many bytes it has; what lies behind them stays.
    pub fn hand_over(&self, out: &mut [u8; LONGEST]) -> Option<usize>
        ensures there { is_some result ≡ complete self.now.receiver }
        ensures within { IfSome result (λ n. n ≤ 214000) }
        ensures count { count_of result ≡ handed_count self.now.receiver }
        ensures written { out.new ≡ handed_into self.now.receiver out.old }
    {
        self.station.hand_over(out)
    }

    // What there is to report. The clause room says what any ship keeps.
    pub fn report(&self) -> Report
        ensures value { result ≡ report_of self.now }
        ensures room { InRoom self.now.sender }
    {
        // asked for its clause room alone: the answer is the outcome's own
        let _told = self.link.done();
        Report {
            outcome: self.outcome,
            counts: self.line.counts,
        }
    }
}
