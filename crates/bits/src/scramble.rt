// The pseudo-random pattern, added to bits so that long runs of one bit are broken up. Adding it twice gives the bits back.
ghost use Rattle.std.specs.Prelude.{◌≡◌, ◌<◌, ◌≤◌, ◌++◌, length, take, drop, slice_index};
ghost use Rattle.bits.specs.Pattern.{pattern, patterned};

// The first 255 bits of the pattern. After them the register is as it began, so that they come again and again.
const ROW: [u8; 255] = [
    1, 1, 1, 1, 1, 1, 1, 1, 0, 1, 0, 0, 1, 0, 0, 0, 0, 0, 0, 0, 1, 1, 1, 0, 1, 1, 0, 0, 0, 0, 0, 0,
    1, 0, 0, 1, 1, 0, 1, 0, 0, 0, 0, 0, 1, 1, 0, 1, 0, 1, 1, 1, 0, 0, 0, 0, 1, 0, 1, 1, 1, 1, 0, 0,
    1, 0, 0, 0, 1, 1, 1, 0, 0, 0, 1, 0, 1, 1, 0, 0, 1, 0, 0, 1, 0, 0, 1, 1, 1, 0, 1, 0, 1, 1, 0, 1,
    1, 0, 1, 0, 0, 1, 1, 1, 1, 0, 1, 1, 0, 1, 1, 1, 0, 1, 0, 0, 0, 1, 1, 0, 1, 1, 0, 0, 1, 1, 1, 0,
    0, 1, 0, 1, 1, 0, 1, 0, 1, 0, 0, 1, 0, 1, 1, 1, 0, 1, 1, 1, 1, 1, 0, 1, 1, 1, 0, 0, 1, 1, 0, 0,
    0, 0, 1, 1, 0, 0, 1, 0, 1, 0, 1, 0, 0, 0, 1, 0, 1, 0, 1, 1, 1, 1, 1, 1, 0, 0, 1, 1, 1, 1, 1, 0,
    0, 0, 0, 0, 1, 0, 1, 0, 0, 0, 0, 1, 0, 0, 0, 0, 1, 1, 1, 1, 0, 0, 0, 1, 1, 0, 0, 0, 1, 0, 0, 0,
    1, 0, 0, 1, 0, 1, 0, 0, 1, 1, 0, 0, 1, 1, 0, 1, 1, 1, 1, 0, 1, 0, 1, 0, 1, 0, 1, 1, 0, 0, 0,
];

// The bit at a place of the pattern.
#[tactic(auto, using(crate::proofs::Rows::row_is), unfolding(crate::proofs::Rows::row))]
fn pattern_bit(i: usize) -> u8
    requires { i < 255 }
    ensures { result ≡ slice_index (pattern 255 255) i }
{
    ROW[i]
}

// Adds the pattern, from its beginning, to no more bits than come before it repeats. By place: of a slice written through `zip` a
// proof knows the length alone.
#[tactic(auto, using(crate::proofs::Rows::after_none, crate::proofs::Rows::after_more, crate::proofs::Rows::pattern_at, crate::proofs::Steps::patterned_more, crate::proofs::Steps::patterned_all))]
fn add_row(bits: &mut [u8])
    requires { length bits.old ≤ 255 }
    ensures { bits.new ≡ patterned bits.old }
{
    for (i, x) in bits.iter_mut().enumerate() {
        *x = (*x % 2 + pattern_bit(i) % 2) % 2;
    }
}

// Adds the pattern, from its beginning, to each of the bits modulo 2: row by row, each by its place, since of a slice written
// through `chunks_mut` a proof knows the length alone.
#[tactic(auto, using(crate::proofs::Rows::row_more, crate::proofs::Steps::patterned_all))]
pub fn add_pattern(bits: &mut [u8])
    ensures { bits.new ≡ patterned bits.old }
{
    let mut at = 0;
    while at < bits.len() {
        let end = bits.len().min(at + 255);
        add_row(&mut bits[at..end]);
        at = end;
    }
}
