// The field's arithmetic as the decoder uses it.
ghost use Rattle.std.specs.Prelude.{◌≡◌, ◌<◌, slice_index};
ghost use Rattle.gf256.specs.Field.{inverse, ◌⊕◌, ◌⊙◌};
ghost use Rattle.rs_theory.specs.Code.{locators};

use gf256::{mul, mul_by_bits, power_of_two};

// a + b * c
#[tactic(auto, using(crate::proofs::Products::add_product))]
pub fn multiply_add(a: u8, b: u8, c: u8) -> u8
    ensures { result ≡ a ⊕ (b ⊙ c) }
{
    a ^ mul(b, c)
}

// The same without tables, for loops over many bytes.
#[tactic(auto, using(crate::proofs::Products::add_product))]
pub fn multiply_add_by_bits(a: u8, b: u8, c: u8) -> u8
    ensures { result ≡ a ⊕ (b ⊙ c) }
{
    a ^ mul_by_bits(b, c)
}

// a * (b + c)
#[tactic(auto, using(crate::proofs::Products::product_sum))]
pub fn multiply_sum(a: u8, b: u8, c: u8) -> u8
    ensures { result ≡ a ⊙ (b ⊕ c) }
{
    mul(a, b ^ c)
}

// a / d, and 0 where d is 0
#[tactic(auto, using(crate::proofs::Products::quotient_zero))]
pub fn quotient(a: u8, d: u8) -> u8
    ensures { result ≡ a ⊙ inverse d }
{
    match gf256::inverse(d) {
        Some(i) => mul(a, i),
        None => 0,
    }
}

// The locator of place p in a word.
#[tactic(auto, using(crate::proofs::Products::locator_at))]
pub fn locator(p: usize) -> u8
    requires { p < 255 }
    ensures { result ≡ slice_index (locators 255) p }
{
    power_of_two(254 - p)
}
