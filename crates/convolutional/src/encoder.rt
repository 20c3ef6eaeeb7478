// Two bits for each bit, from the last seven, and six zeros behind.
ghost use Rattle.std.specs.Prelude.{◌≡◌, ℕ, ◌+◌, ◌*◌, ◌<◌, true, false, T, length, is_ok, Err, MatchResult, ◌≢◌, bit_and, slice_set};
ghost use Rattle.bits.specs.declared.Refusal.TheVariants.{NoFrame, WrongMemory};
ghost use Rattle.bits.specs.Lists.{are_bits};
ghost use Rattle.conv_theory.specs.Code.{deep, first_out, second_out, next as next_state, parity as parity_of, sent as sent_as};

use crate::lengths::{all_bits, sent_as};
use bits::Refusal;

// Which of the last seven bits each output adds up, the newest counting 64.
const FIRST: u8 = 0b111_1001;

const SECOND: u8 = 0b101_1011;

// The sum of a number's bits, modulo 2.
fn parity(w: u8) -> u8
    requires { w < 128 }
    ensures { result ≡ parity_of 7 w }
{
    (w.count_ones() & 1) as u8
}

// What goes out for a window of seven bits.
fn outputs(window: u8) -> (u8, u8)
    ensures first { result.0 ≡ parity_of 7 (bit_and window 121) }
    ensures second { result.1 ≡ parity_of 7 (bit_and window 91) }
{
    (parity(window & FIRST), parity(window & SECOND))
}

// What goes out for one bit more, at place i. Answers the state behind it.
fn put_pair(out: &mut [u8], i: usize, state: u8, bit: u8) -> u8
    requires room { 2 * i + 1 < length out.old }
    requires known { state < 64 }
    requires binary { bit < 2 }
    ensures written { out.new ≡ slice_set (slice_set out.old (2 * i) (first_out deep state bit)) (2 * i + 1) (second_out deep state bit) }
    ensures next { result ≡ next_state deep state bit }
    ensures small { result < 64 }
{
    let window = state + 64 * bit;
    let (first, second) = outputs(window);
    out[2 * i] = first;
    out[2 * i + 1] = second;
    window / 2
}

// The bits, and zeros behind the last. In two loops: over a chain of both, encoding takes twice the time. `out` is written by index: of what `chunks_exact_mut` lends out a proof keeps only the length.
fn spread_into(bits: &[u8], out: &mut [u8])
    requires long { length out.old ≡ 2 * (length bits.now + 6) }
    requires binary { T (are_bits bits.now) }
    ensures { out.new ≡ sent_as bits.now }
{
    let mut state: u8 = 0;
    for (i, bit) in bits.iter().enumerate() {
        state = put_pair(out, i, state, *bit);
    }
    for i in bits.len()..bits.len() + 6 {
        state = put_pair(out, i, state, 0);
    }
}

// n bits, each a byte 0 or 1, as 2 (n + 6) bits. Refuses, and leaves `out` as it was, where `out` is not just so long, or a byte is above 1.
pub fn encode(bits: &[u8], out: &mut [u8]) -> Result<(), Refusal>
    ensures sent { MatchResult result (λ _. out.new ≡ sent_as bits.now) (λ _. out.new ≡ out.old) }
    ensures memory { (length out.old ≢ 2 * (length bits.now + 6)) → result ≡ Err WrongMemory }
    ensures binary { length out.old ≡ 2 * (length bits.now + 6) → are_bits bits.now ≡ false → result ≡ Err NoFrame }
    ensures taken { length out.old ≡ 2 * (length bits.now + 6) → T (are_bits bits.now) → is_ok result ≡ true }
{
    sent_as(bits.len(), out.len())?;
    all_bits(bits)?;
    spread_into(bits, out);
    Ok(())
}
