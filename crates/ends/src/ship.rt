// The ship's turn: a line in, its next frame out in its place.
ghost use Rattle.std.specs.Prelude.{◌≡◌};
ghost use Rattle.transfer_theory.specs.Sender.{after_saying};
ghost use Rattle.ends.specs.Turns.{says_line, ShipHeard, ShipTurned};

use super::hearing::{hear_line, say_line};
use bits::Refusal;
use link::TheLink;
use text::Line;
use transfer::sides::Ship;

// Takes in what is heard in a line.
#[tactic(auto, unfolding(transfer_theory::specs::Sender::told))]
fn take_in(link: &mut TheLink, line: &Line) -> Result<(), Refusal>
    ensures { ShipHeard link.old link.new line.now result }
{
    if let Some(payload) = hear_line(line)? {
        link.heard(&payload);
    }
    Ok(())
}

// The first frame, before anything is heard: the ship says it, and the line holds it.
pub fn ship_first(link: &mut TheLink, line: &mut Line)
    ensures said { line.new ≡ says_line link.old }
    ensures after { link.new ≡ after_saying link.old }
{
    let mut payload = [0; 221];
    link.next(&mut payload);
    say_line(&payload, line);
}

// One turn: takes in what is heard in the line, writes the ship's next frame in its place, and answers whether the ship is done.
// A line that is neither empty nor a frame is refused, and then the ship and the line stay as they were.
pub fn ship_turn(link: &mut TheLink, line: &mut Line) -> Result<bool, Refusal>
    ensures { ShipTurned link.old link.new line.old line.new result }
{
    take_in(link, line)?;
    let done = link.done();
    ship_first(link, line);
    Ok(done)
}
