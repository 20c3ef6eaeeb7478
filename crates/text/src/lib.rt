// Text and values: lines of digits, numbers as arguments, and the noise that spoils lines.
#![tactic(auto)]

ghost use Rattle.text.specs.Laws.{TextRight};

mod line;
mod lines;
mod noise;
mod numbers;
mod spoiling;

pub use line::{FRAME, LONGEST, Line};
pub use lines::{read_bits, read_line};
pub use noise::Noise;
pub use numbers::{chance, file_number, number};
pub use spoiling::spoil_line;

// The laws of this layer: what is written is read back and nothing else is; where input is cut does not matter; noise changes a
// digit exactly where its draw is below P; and the generator's known outputs.
#[tactic(auto, using(crate::proofs::NoiseLaws::text_right))]
pub fn text_stands() -> u8
    ensures { TextRight }
{
    0
}
