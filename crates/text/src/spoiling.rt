// A line of text, spoiled on its way.
ghost use Rattle.std.specs.Prelude.{◌≡◌};
ghost use Rattle.text.specs.Spoiling.{LineSpoiled};

use super::line::{FRAME, Line};
use super::lines::read_bits;
use super::noise::Noise;
use bits::Refusal;

// Spoils one line: an empty line stays empty, a frame becomes an empty line or has each digit changed where its draw is below p.
// The draws are the same in each case. Any other line is refused, and then the line and the noise stay as they were.
pub fn spoil_line(noise: &mut Noise, p: u32, line: &mut Line) -> Result<(), Refusal>
    ensures { LineSpoiled p noise.old.state noise.new.state line.old line.new result }
{
    match read_bits::<FRAME>(line.text())? {
        None => {
            noise.pass(FRAME);
            line.clear();
        }
        Some(mut bits) => match noise.spoil(p, &mut bits) {
            Some(_) => line.write(&bits),
            None => line.clear(),
        },
    }
    Ok(())
}
