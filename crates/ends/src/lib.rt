// Both ends of the link between a line read and a line printed: what the programs do, one call each.
#![tactic(auto)]

ghost use Rattle.ends.specs.Laws.{EndsRight};

mod hearing;
mod ship;
mod station;

pub use ship::{ship_first, ship_turn};
pub use station::{hand_over, leave_once, station_answers, station_hears};

// The laws of turns and transcripts, named in a contract so that the checker asks for their proofs.
#[tactic(auto, using(crate::proofs::Once::ends_right))]
pub fn ends_stand() -> u8
    ensures { EndsRight }
{
    0
}
