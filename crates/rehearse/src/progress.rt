// Progress and a last summary for people, on standard error (where that fails, nothing else changes), where the environment variable KATYDIDWIRE_PROGRESS asks for it: its value is every how many rounds a line is shown.
ghost use Rattle.std.specs.Prelude.{◌<◌};

use rehearsal::{Rehearsal, Report};
use std::env;
use std::env::VarError;
use transfer::message::PART;

// every: a line each so many rounds. parts: how many the file has.
#[derive(Clone, Copy)]
pub struct Progress {
    pub every: u64,
    parts: usize,
    ghost shown: { 0 < every },
}

// The value of the variable: a number above 0; any other text counts as 100.
fn every_in(text: &str) -> u64
    ensures { 0 < result }
{
    match text::number(text.as_bytes(), u64::MAX) {
        Ok(n) if n > 0 => n,
        _ => 100,
    }
}

// a in parts of 1,000 of b; 0 of none.
fn thousandths(a: u64, b: u64) -> u128 {
    (u128::from(a) * 1000)
        .checked_div(u128::from(b))
        .unwrap_or(0)
}

impl Progress {
    // That of a file of so many bytes, where it is asked for.
    pub fn asked(rt: &HostRuntime, bytes: usize) -> Option<Progress> {
        let every = match env::var(rt, "KATYDIDWIRE_PROGRESS") {
            Ok(text) => every_in(text.as_str()),
            Err(VarError::NotUnicode) => 100,
            Err(_) => return None,
        };
        Some(Progress {
            every,
            parts: bytes.div_ceil(PART),
        })
    }

    // Round, parts there, and the rate at which frames are heard each way.
    pub fn show(&self, rt: &HostRuntime, rehearsal: &Rehearsal) {
        let Report { outcome, counts } = rehearsal.report();
        let rounds = outcome.rounds;
        let there = rehearsal.parts_there();
        let parts = self.parts;
        let forth = thousandths(counts.below, rounds);
        let back = thousandths(counts.above, counts.answers);
        let _ = eprintln!(rt;
            "round {rounds}: {there} of {parts} parts there; of 1,000 frames {forth} heard by the station, {back} by the ship"
        );
    }

    // The last summary.
    pub fn summary(&self, rt: &HostRuntime, rehearsal: &Rehearsal) {
        let Report { outcome, counts } = rehearsal.report();
        let rounds = outcome.rounds;
        let there = rehearsal.parts_there();
        let parts = self.parts;
        let repeated = counts.parts.saturating_sub(parts as u64);
        let lost_forth = rounds.saturating_sub(counts.below);
        let lost_back = counts.answers.saturating_sub(counts.above);
        let _ = eprintln!(rt;
            "{rounds} rounds: {there} of {parts} parts there, parts repeated {repeated}"
        );
        let _ = eprintln!(rt;
            "lost on the way to the station {lost_forth} of {rounds}, {} in 1,000",
            thousandths(lost_forth, rounds)
        );
        let _ = eprintln!(rt;
            "lost on the way to the ship {lost_back} of {}, {} in 1,000",
            counts.answers,
            thousandths(lost_back, counts.answers)
        );
    }
}
