// The errors: at which locators the polynomial vanishes, and the values there.
ghost use Rattle.std.specs.Prelude.{◌≡◌, ◌<◌, ◌≤◌, length, MatchOption};
ghost use Rattle.rs_theory.specs.Code.{locators};
ghost use Rattle.rs_decoding.specs.Decoding.{roots_of, peel, value_at, corrected};

use crate::arithmetic::{locator, multiply_add, multiply_sum, quotient};
use arrayvec::ArrayVec;

// The locators beside which a zero stands, if they are no more than 16.
pub fn find_roots(values: &[u8; 255]) -> Option<ArrayVec<u8, 16>>
    ensures { MatchOption result (16 < length (roots_of values.now (locators 255))) (λ ys. ys.items ≡ roots_of values.now (locators 255)) }
{
    let mut roots = ArrayVec::new();
    for (p, value) in values.iter().enumerate() {
        if *value == 0 {
            roots.try_push(locator(p)).ok()?;
        }
    }
    Some(roots)
}

// Frees the first syndromes from what stands at locator y.
fn peel_off(t: &mut [u8; 32], count: usize, y: u8)
    requires { count < 32 }
    ensures { t.new ≡ peel count y t.old }
{
    // no chain: each place takes in its neighbour, out of a copy: where y is zero, a move in place would be made of the loop
    let before = *t;
    for j in 0..count {
        t[j] = multiply_add(before[j + 1], y, before[j]);
    }
}

// The value of the error at locator x, if all errors stand at the roots.
fn error_value(x: u8, roots: &[u8], s: &[u8; 32]) -> u8
    requires { length roots.now ≤ 16 }
    ensures { result ≡ value_at x roots.now s.now }
{
    let mut t = *s;
    let mut divisor = x;
    for (k, y) in roots.iter().enumerate() {
        if *y != x {
            peel_off(&mut t, roots.len() - k, *y);
            divisor = multiply_sum(divisor, x, *y);
        }
    }
    quotient(t[0], divisor)
}

// Takes the errors at the roots off.
pub fn correct(word: &mut [u8; 255], values: &[u8; 255], roots: &ArrayVec<u8, 16>, s: &[u8; 32])
    ensures { word.new ≡ corrected values.now roots.now.items s.now word.old (locators 255) }
{
    // by place: of a slice written through `zip` a proof knows the length alone
    for (p, byte) in word.iter_mut().enumerate() {
        if values[p] == 0 {
            *byte ^= error_value(locator(p), roots, s);
        }
    }
}
