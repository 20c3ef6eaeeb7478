// The field of 256 elements: products, inverses and powers by tables, and its laws.
#![tactic(auto)]

ghost use Rattle.std.specs.Prelude.{◌≡◌, if◌then◌else◌, ◌==◌, ◌%◌, ◌<◌, ◌≢◌, MatchOption};
ghost use Rattle.gf256.specs.Field.{twice, product, power};
ghost use Rattle.gf256.specs.Laws.{FieldLaws, IsInverse, IsLog};

mod tables;

use tables::{EXP, LOG};

// 2^k for every k: the powers come round after 255.
#[tactic(auto, using(crate::proofs::Rules::power_read))]
pub fn power_of_two(k: usize) -> u8
    ensures { result ≡ power 2 k }
{
    EXP[k % 255]
}

// What the table has for a: its exponent as a power of 2, if a is not zero.
fn exponent(a: u8) -> usize
    ensures below { result < 255 }
    ensures exponent { a ≢ 0 → IsLog a result }
{
    usize::from(LOG[usize::from(a)])
}

// The exponent of a as a power of 2, below 255. Zero has none.
pub fn log(a: u8) -> Option<usize>
    ensures { MatchOption result (a ≡ 0) (λ k. IsLog a k) }
{
    if a == 0 {
        return None;
    }
    Some(exponent(a))
}

// The power for a sum of two exponents: the table goes round twice, and nothing is divided.
#[tactic(auto, using(crate::proofs::Rules::near_power_read))]
fn near_power(k: usize) -> u8
    requires { k < 510 }
    ensures { result ≡ power 2 k }
{
    EXP[k]
}

// What the tables give for two factors stands only where neither is zero.
#[tactic(auto, using(crate::proofs::Rules::products))]
fn unless_zero(a: u8, b: u8, given: u8) -> u8
    ensures { (a ≢ 0 → b ≢ 0 → given ≡ product a b) → result ≡ product a b }
{
    if a == 0 || b == 0 { 0 } else { given }
}

// The tables are read for every factor, zero too, and the choice comes last and in a function of its own: so it is made without a jump, which would cost more.
#[tactic(auto, using(crate::proofs::Rules::products))]
pub fn mul(a: u8, b: u8) -> u8
    ensures { result ≡ product a b }
{
    unless_zero(a, b, near_power(exponent(a) + exponent(b)))
}

// 2 times a: the bit that leaves at the top comes back as 29.
#[tactic(auto, using(crate::proofs::Rules::twice_high))]
fn double(a: u8) -> u8
    ensures { result ≡ twice a }
{
    if a < 128 { 2 * a } else { 2 * (a - 128) ^ 29 }
}

// a if b is odd.
fn if_odd(b: u8, a: u8) -> u8
    ensures { result ≡ (if b % 2 == 1 then a else 0) }
{
    if b % 2 == 1 { a } else { 0 }
}

// The product without tables, bit by bit: slow for one byte, but of many bytes the compiler does sixteen at a time.
pub fn mul_by_bits(a: u8, b: u8) -> u8
    ensures { result ≡ product a b }
{
    let mut sum = 0;
    let mut multiple = a;
    let mut rest = b;
    for _ in 0..8usize {
        sum ^= if_odd(rest, multiple);
        multiple = double(multiple);
        rest /= 2;
    }
    sum
}

// What gives 1 times a. Zero has none.
pub fn inverse(a: u8) -> Option<u8>
    ensures { MatchOption result (a ≡ 0) (λ i. IsInverse a i) }
{
    let k = log(a)?;
    Some(near_power(255 - k))
}

// Bytes with bit_xor and the product are a field, and 2 has order 255.
pub fn field_stands() -> u8
    ensures laws { FieldLaws }
    ensures row { product 2 128 ≡ 29 }
{
    0
}
