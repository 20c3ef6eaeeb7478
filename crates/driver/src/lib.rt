// The driver: plays rounds over any ship, station and line, and says in which round the station was first complete and whether the ship was told.
#![tactic(auto)]

ghost use Rattle.std.specs.Prelude.{◌≡◌, ◌<◌, ◌≤◌, true};
ghost use Rattle.bits.specs.Heard.{Heard};
ghost use Rattle.driver.specs.Log.{ongoing};
ghost use Rattle.driver.specs.Played.{Turned, Played, PlayedOn, Promised, DriverRight, Enough};
ghost use Rattle.driver.specs.Driving.{Brought, PlainPlayed, EndsInRun, PlainEnough, PlainRight};

use transfer::sides::{Line, Ship, Station};

// What came of it; the default is that of no round. complete: the round, counted from 1, after which the station was first complete, or none. told: whether the ship was told.
#[derive(Clone, Copy, PartialEq, Eq, Debug, Default)]
pub struct Outcome {
    pub rounds: u64,
    pub complete: Option<u64>,
    pub told: bool,
}

// Any line without a state: what may be heard when this was said, nothing said and nothing heard being Lost.
pub trait PlainLine {
    ghost comes: { Heard → Heard → Type 0 };
}

// One round: the ship says, the station hears and answers if it has a length, the ship hears.
// (No struct of the three: they are a caller's own, and it would borrow them only to be taken apart.)
#[tactic(auto, using(crate::proofs::Logged::reply_is, crate::proofs::Logged::hears_nothing, crate::proofs::Logged::told_nothing))]
fn round<S: Ship, G: Station, L: Line>(ship: &mut S, station: &mut G, line: &mut L)
    ensures { Turned L.Line.forth L.Line.back line.old line.new (S.Ship.sender ship.old) (S.Ship.sender ship.new) (G.Station.receiver station.old) (G.Station.receiver station.new) }
{
    let mut said = [0; 221];
    ship.next(&mut said);
    if let Some(payload) = line.down(&said) {
        station.heard(&payload);
    }
    let answer = station.answer();
    if let Some(payload) = line.up(&answer) {
        ship.heard(&payload);
    }
}

// Whether one round more is played: the budget is not spent, and the ship is not done.
fn goes_on<S: Ship>(ship: &S, rounds: u64, budget: u64) -> bool
    ensures { result ≡ ongoing rounds budget (S.Ship.sender ship.now) }
{
    rounds < budget && !ship.done()
}

// Plays on after rounds that were played already, until the ship is told or so many rounds were played in all.
pub fn play_on<S: Ship, G: Station, L: Line>(
    ship: &mut S,
    station: &mut G,
    line: &mut L,
    so_far: Outcome,
    budget: u64,
) -> Outcome
    ensures played { PlayedOn L.Line.forth L.Line.back line.old line.new (S.Ship.sender ship.old) (S.Ship.sender ship.new) (G.Station.receiver station.old) (G.Station.receiver station.new) so_far.rounds so_far.complete result.rounds result.complete }
    ensures told { result.told ≡ (S.Ship.sender ship.new).done }
    ensures budget { so_far.rounds ≤ budget → result.rounds ≤ budget }
    ensures stopped { result.rounds < budget → result.told ≡ true }
{
    let mut rounds = so_far.rounds;
    let mut complete = so_far.complete;
    // the count of rounds is part of the answer, and the ship may end them at any time
    while goes_on(ship, rounds, budget) {
        round(ship, station, line);
        rounds += 1;
        complete = complete.or_else(|| station.complete().then_some(rounds));
    }
    Outcome {
        rounds,
        complete,
        told: ship.done(),
    }
}

// Plays rounds until the ship is told or the budget is spent. The clauses plain, run and plain_enough see the line as one without a state, by what it brings.
pub fn play<S: Ship, G: Station, L: Line>(
    ship: &mut S,
    station: &mut G,
    line: &mut L,
    budget: u64,
) -> Outcome
    ensures played { (p : Played L.Line.forth L.Line.back line.old line.new (S.Ship.sender ship.old) (S.Ship.sender ship.new) (G.Station.receiver station.old) (G.Station.receiver station.new) result.rounds result.complete) × Promised (S.Ship.sender ship.old) (G.Station.receiver station.old) p.log }
    ensures plain { PlainPlayed (Brought L.Line.forth L.Line.back) (S.Ship.sender ship.old) (G.Station.receiver station.old) result.rounds result.complete (S.Ship.sender ship.new) (G.Station.receiver station.new) }
    ensures run { EndsInRun (S.Ship.sender ship.old) (G.Station.receiver station.old) (S.Ship.sender ship.new) (G.Station.receiver station.new) }
    ensures told { result.told ≡ (S.Ship.sender ship.new).done }
    ensures budget { result.rounds ≤ budget }
    ensures stopped { result.rounds < budget → result.told ≡ true }
    ensures enough { Enough L.Line.forth L.Line.back (S.Ship.sender ship.old) (G.Station.receiver station.old) budget result.told }
    ensures plain_enough { PlainEnough (Brought L.Line.forth L.Line.back) (S.Ship.sender ship.old) (G.Station.receiver station.old) budget result.told }
{
    play_on(ship, station, line, Outcome::default(), budget)
}

// What the log of rounds played promises, whoever played them.
#[tactic(auto, using(crate::proofs::Logged::promised))]
pub fn driver_stands() -> u8
    ensures { DriverRight }
{
    0
}

// What rounds promise over a line that keeps to one without a state.
#[tactic(auto, using(crate::proofs::Plain::plain_right))]
pub fn plain_stands<L: Line, P: PlainLine>() -> u8
    ensures { PlainRight P.PlainLine.comes L.Line.forth L.Line.back }
{
    0
}
