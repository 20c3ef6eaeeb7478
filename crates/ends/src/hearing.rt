// What is heard in a line of text, and the line that says a payload.
ghost use Rattle.std.specs.Prelude.{◌≡◌};
ghost use Rattle.frame_theory.specs.Frame.{frame};
ghost use Rattle.text.specs.Lines.{digits};
ghost use Rattle.ends.specs.Hearing.{LineHeard};

use bits::Refusal;
use frame::Radio;
use link::TheLink;
use text::{FRAME, Line, read_bits};

// The payload that is heard in a line, or nothing. A line that is neither empty nor a frame is refused.
pub(crate) fn hear_line(line: &Line) -> Result<Option<[u8; 221]>, Refusal>
    ensures { LineHeard line.now result }
{
    match read_bits::<FRAME>(line.text())? {
        None => Ok(None),
        Some(bits) => <TheLink as Radio>::hear(&bits),
    }
}

// Writes the frame of a payload, in the place of what the line held.
pub(crate) fn say_line(payload: &[u8; 221], line: &mut Line)
    ensures { line.new ≡ digits (frame payload.now) }
{
    let mut bits = [0; FRAME];
    <TheLink as Radio>::send(payload, &mut bits);
    line.write(&bits);
}
