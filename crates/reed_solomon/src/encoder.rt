// The encoder: the message goes byte by byte through a register that divides it by the generator.
ghost use Rattle.std.specs.Prelude.{◌≡◌, ℕ, ◌≤◌, [], ◌++◌, length, drop, bit_xor, slice_index};
ghost use Rattle.bits.specs.Lists.{zeros};
ghost use Rattle.rs_theory.specs.Code.{generator, feed, remainder, encode as encoding};
ghost use Rattle.rs_theory.specs.Promise.{IsResidue};

use crate::Word;
use crate::rows::{HIGH, LOW};

// Adds the other bytes, place by place.
fn add(sum: &mut [u8; 32], other: &[u8])
    requires { length other.now ≤ 32 }
    ensures { (k : ℕ) → slice_index sum.new k ≡ bit_xor (slice_index sum.old k) (slice_index other.now k) }
{
    // by place: of a slice written through `zip` a proof knows the length alone
    for (i, byte) in other.iter().enumerate() {
        sum[i] ^= *byte;
    }
}

// f times the generator: the tables have the multiples for each half of f.
fn multiple(f: u8) -> [u8; 32]
    ensures { result ≡ feed f (generator 32) [] }
{
    // each row behind a reference: a row taken out as a value is slower, since the whole table is copied for it
    let low = &LOW[usize::from(f & 15)];
    let high = &HIGH[usize::from(f >> 4)];
    let mut sum = *low;
    add(&mut sum, high);
    sum
}

// One byte of the message: the register moves up by one place, a zero moves in, and the generator is added as often as the byte that leaves asks for.
fn step(register: &[u8; 32], m: u8) -> [u8; 32]
    ensures { result ≡ feed (bit_xor m (slice_index register.now 0)) (generator 32) (drop 1 register.now) }
{
    let mut next = multiple(m ^ register[0]);
    add(&mut next, &register[1..]);
    next
}

// The message and the register.
#[tactic(auto, using(crate::proofs::Parts::long_enough, crate::proofs::Parts::both_written))]
fn joined(message: &[u8; 223], register: &[u8; 32]) -> [u8; 255]
    ensures { result ≡ message.now ++ register.now }
{
    let mut bytes = [0; 255];
    bytes[..223].copy_from_slice(message);
    bytes[223..].copy_from_slice(register);
    bytes
}

// What the register holds once the whole message has gone through it.
fn divided(message: &[u8]) -> [u8; 32]
    ensures { result ≡ remainder (generator 32) message.now (zeros 32) }
{
    let mut register = [0; 32];
    for m in message {
        register = step(&register, *m);
    }
    register
}

// The message, and 32 bytes that make it a code word.
pub fn encode(message: &[u8; 223]) -> Word
    ensures { result.bytes ≡ encoding message.now }
{
    Word {
        bytes: joined(message, &divided(message)),
    }
}

// What the last 32 bytes differ by from those that the encoder gives for the others: zeros just at code words, and at 2^1 .. 2^32 the values of the word.
pub fn residue(bytes: &[u8; 255]) -> [u8; 32]
    ensures { IsResidue bytes.now result }
{
    let mut rest = divided(&bytes[..223]);
    add(&mut rest, &bytes[223..]);
    rest
}
