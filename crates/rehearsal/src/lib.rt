// Rehearsals: a ship and a station on one table, with a noisy line between them that counts what goes on.
#![tactic(auto)]

ghost use Rattle.rehearsal.specs.Laws.{RehearsalRight};

mod noisy;
mod rehearsing;

pub use noisy::{Counts, Noisy};
pub use rehearsing::{Rehearsal, Report};

// What a rehearsal promises: it can be repeated, and enough good rounds end it.
#[tactic(auto, using(crate::proofs::Ending::rehearsal_right))]
pub fn rehearsal_stands() -> u8
    ensures { RehearsalRight }
{
    0
}
