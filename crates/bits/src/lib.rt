// Bytes and bits, the check of 16 bits, the pseudo-random pattern, and the closed list of refusals: what every layer of the link shares.
#![tactic(auto)]

ghost use Rattle.std.specs.Prelude.{◌≡◌, Some};
ghost use Rattle.bits.specs.Laws.{BitsRight};
ghost use Rattle.bits.specs.Refusals.{number, reason};

mod bytes;
mod check;
mod scramble;

pub use bytes::{bits_of, byte_of, pack, unpack};
pub use check::crc16;
pub use scramble::add_pattern;
use std::fmt;

// Why a call refuses. Each case has a fixed number, for callers that see numbers only.
#[derive(Clone, Copy, PartialEq, Eq, Debug)]
pub enum Refusal {
    // not just the bits of one frame, or a byte among them above 1
    NoFrame,
    // a file of more than 214,000 bytes
    TooLong,
    // lent memory of a length that is not the one that it must have
    WrongMemory,
    // a text of no known form
    UnknownText,
}

impl Refusal {
    pub fn code(self) -> u32
        ensures { result ≡ number self }
    {
        match self {
            Refusal::NoFrame => 2,
            Refusal::TooLong => 3,
            Refusal::WrongMemory => 4,
            Refusal::UnknownText => 5,
        }
    }
}

// Why, in words.
impl fmt::Display for Refusal {
    ghost output = { λ refusal. Some (reason refusal) };

    fn fmt<W: fmt::Write>(&self, f: &mut fmt::Formatter<W>) -> fmt::Result {
        f.write_str(match self {
            Refusal::NoFrame => "not the bits of one frame",
            Refusal::TooLong => "the file has more than 214,000 bytes",
            Refusal::WrongMemory => "memory of a wrong length",
            Refusal::UnknownText => "an argument or a line of no known form",
        })
    }
}

impl std::error::Error for Refusal {}

// The laws of this layer: Hamming distance is a metric, bytes and bits go back and forth, the pattern undoes itself, and two known vectors.
#[tactic(auto, using(crate::proofs::Patterns::bits_right))]
pub fn bits_stand() -> u8
    ensures { BitsRight }
{
    0
}
