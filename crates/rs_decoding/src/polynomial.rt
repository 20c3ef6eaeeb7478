// A polynomial, which is to vanish at the error locators, and its values.
ghost use Rattle.std.specs.Prelude.{◌≡◌, ℕ, ◌<◌, T, length, slice_index};
ghost use Rattle.bits.specs.Lists.{are_bytes};
ghost use Rattle.rs_theory.specs.Code.{locators};
ghost use Rattle.rs_decoding.specs.Decoding.{values_of};
ghost use Rattle.gf256.specs.Field.{◌⊕◌, ◌⊙◌};

use crate::arithmetic::{locator, multiply_add_by_bits};
use std::array;

// Of degree 16 at most: its coefficients, the lowest first, with zeros above the degree.
// `wide` and `bytes`: of a struct's field that is an array a proof knows neither length nor bytes otherwise.
#[derive(Clone, Copy)]
pub struct Polynomial {
    pub coefficients: [u8; 17],
    pub degree: usize,
    ghost wide: { length coefficients ≡ 17 },
    ghost bytes: { T (are_bytes coefficients) },
    ghost few: { degree < 17 },
    ghost above: { (j : ℕ) → degree < j → slice_index coefficients j ≡ 0 },
}

// One coefficient more by Horner's rule, at all points at once: one point after the other takes three times as long.
pub fn take_in<const N: usize>(values: &mut [u8; N], points: &[u8; N], a: u8)
    ensures { (p : ℕ) → p < N → slice_index values.new p ≡ a ⊕ (slice_index points.now p ⊙ slice_index values.old p) }
{
    // by place: of a slice written through `zip` a proof knows the length alone
    for (p, value) in values.iter_mut().enumerate() {
        *value = multiply_add_by_bits(a, points[p], *value);
    }
}

// The locators of all places.
fn places() -> [u8; 255]
    ensures { (p : ℕ) → p < 255 → slice_index result p ≡ slice_index (locators 255) p }
{
    array::from_fn(|p| locator(p))
}

impl Polynomial {
    // The values at the locators of all places.
    pub fn values(&self) -> [u8; 255]
        ensures { result ≡ values_of self.now.coefficients (locators 255) }
    {
        let places = places();
        let mut values = [0; 255];
        for a in self.coefficients[..=self.degree].iter().rev() {
            take_in(&mut values, &places, *a);
        }
        values
    }
}
