// Frames as lines of digits 0 and 1. An empty line is nothing heard.
ghost use Rattle.std.specs.Prelude.{◌≡◌, ◌+◌, ◌*◌, ◌≤◌, ◌&&◌, length};
ghost use Rattle.text.specs.Lines.{digits, is_digit, are_digits, bits_in};
ghost use Rattle.text.specs.Reading.{LineRead, BitsRead};

use bits::Refusal;

fn is_digit(x: u8) -> bool
    ensures { result ≡ is_digit x }
{
    x == b'0' || x == b'1'
}

fn all_digits(line: &[u8]) -> bool
    ensures { result ≡ are_digits line.now }
{
    line.iter().all(|x| is_digit(*x))
}

// The bits of digits, of which there are as many as places for them.
fn put_bits(line: &[u8], out: &mut [u8])
    requires { length out.old ≡ length line.now }
    ensures { out.new ≡ bits_in line.now }
{
    for (i, x) in out.iter_mut().enumerate() {
        *x = line[i].saturating_sub(b'0');
    }
}

// Reads a line, without its newline, and says whether it is a frame. A frame has as many digits as there are places for bits; its
// bits are then there. At an empty line, and where anything else is refused, the memory stays as it was.
pub fn read_line(line: &[u8], out: &mut [u8]) -> Result<bool, Refusal>
    ensures { LineRead line.now out.old out.new result }
{
    if line.is_empty() {
        return Ok(false);
    }
    if line.len() != out.len() || !all_digits(line) {
        return Err(Refusal::UnknownText);
    }
    put_bits(line, out);
    Ok(true)
}

// The same where a frame has N digits: nothing of an empty line, and of a frame its bits.
pub fn read_bits<const N: usize>(line: &[u8]) -> Result<Option<[u8; N]>, Refusal>
    ensures { BitsRead N line.now result }
{
    let mut bits = [0; N];
    let is_frame = read_line(line, &mut bits)?;
    Ok(is_frame.then_some(bits))
}

// The digits of bits, of which there are as many as places for them.
pub(crate) fn put_digits(bits: &[u8], out: &mut [u8])
    requires { length out.old ≡ length bits.now }
    ensures { out.new ≡ digits bits.now }
{
    for (i, x) in out.iter_mut().enumerate() {
        *x = b'0' + bits[i] % 2;
    }
}
