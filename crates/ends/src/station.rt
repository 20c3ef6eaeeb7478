// The station's turn: a line in, and then its answer's frame, with the file written in between.
ghost use Rattle.std.specs.Prelude.{◌≡◌, ◌≤◌, take, is_some};
ghost use Rattle.transfer_theory.specs.Receiver.{handed};
ghost use Rattle.ends.specs.Turns.{answer_line, due, StationHeard};

use super::hearing::{hear_line, say_line};
use bits::Refusal;
use link::TheGround;
use text::Line;
use transfer::ship::LONGEST;
use transfer::sides::Station;
use transfer::station::Leave;

// Takes in what is heard in the line. A line that is neither empty nor a frame is refused, and then the station stays as it was.
#[tactic(auto, unfolding(transfer_theory::specs::Receiver::hears))]
pub fn station_hears(station: &mut TheGround, line: &Line) -> Result<(), Refusal>
    ensures { StationHeard station.old station.new line.now result }
{
    if let Some(payload) = hear_line(line)? {
        station.heard(&payload);
    }
    Ok(())
}

// The line of the station's answer, or an empty one while it has no length.
pub fn station_answers(station: &TheGround, line: &mut Line)
    ensures { line.new ≡ answer_line station.now }
{
    match station.answer() {
        Some(payload) => say_line(&payload, line),
        None => line.clear(),
    }
}

// Leave to write the file, if and only if the station is complete and nothing was written yet (of which only the caller can know).
pub fn leave_once(station: &TheGround, written: bool) -> Option<Leave>
    ensures { is_some result ≡ due written station.now }
{
    if written {
        return None;
    }
    station.leave()
}

// Spends the leave: the file is the first bytes of `out`, lent memory, so many as this answers.
pub fn hand_over(station: &TheGround, leave: Leave, out: &mut [u8; LONGEST]) -> usize
    ensures file { take result out.new ≡ handed station.now }
    ensures bound { result ≤ 214000 }
{
    station.spend(leave, out)
}
