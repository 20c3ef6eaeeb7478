// Bytes and bits spoiled at even distances.
ghost use Rattle.std.specs.Prelude.{◌<◌};

// Adds a byte, bit by bit modulo 2, to the first place and every so manieth behind it, but to no more than so many.
pub fn spoil(places: &mut [u8], step: usize, most: usize, by: u8)
    requires { 0 < step }
{
    for b in places.iter_mut().step_by(step).take(most) {
        *b ^= by;
    }
}
