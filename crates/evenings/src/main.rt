// Thousands of evenings by chance, from a fixed seed: after each event both sides are held to the rules, computed anew.
#![tactic(auto)]

mod book;
mod evening;
mod expected;
mod random;
mod tally;

use evening::{Evening, UNTOUCHED};
use random::Dice;
use std::alloc::{AllocError, Global};
use transfer::ship::{LONGEST, Vessel};
use transfer::station::{Ground, MEMORY};

const LENGTHS: [usize; 12] = [0, 1, 213, 214, 215, 427, 428, 429, 600, 642, 1000, 2140];

// Bytes by chance, of which each file is a stretch.
fn pool(heap: Global, dice: &mut Dice) -> Result<Vec<u8>, AllocError> {
    (0..LONGEST).map(|_| dice.byte()).collect(heap)
}

// So many bytes from a place on, or as many as there are.
fn stretch(pool: &[u8], from: usize, length: usize) -> &[u8] {
    let rest = &pool[from.min(pool.len())..];
    &rest[..length.min(rest.len())]
}

// Short files of all lengths that matter, and one file of the greatest length.
fn play_all<'a>(evening: &mut Evening<'a>, pool: &'a [u8]) {
    for _ in 0..400 {
        for length in LENGTHS {
            let from = evening.dice.below(200000);
            let events = evening.dice.below(100);
            evening.play(stretch(pool, from, length), events);
        }
    }
    evening.play(pool, 300);
}

fn main(rt: HostRuntime) -> anyhow::Result<()> {
    let mut dice = Dice::new(20261118);
    let pool = pool(rt.alloc(), &mut dice)?;
    let ship = Vessel::new(rt.alloc())?;
    let mut memory = vec![in rt.alloc(); 255u8; MEMORY]?;
    let mut out = [UNTOUCHED; LONGEST];
    let station = Ground::open(0, &mut memory)?;
    let mut evening = Evening::new(dice, ship, station, &mut out);
    play_all(&mut evening, &pool);
    evening.tally.show(&rt)
}
