// The convolutional code of 64 states: what n bits are sent as, 2 (n + 6) of them, and the search for the bits that were sent.
#![tactic(auto)]

mod decoder;
mod encoder;
mod heard;
mod lengths;
mod small;
mod sum;
mod trellis;

pub use conv_theory::Cost;
pub use decoder::{decode, decode_hard};
pub use encoder::encode;
