// Frames: what goes out for a payload of 221 bytes, 4,092 bits, and what is heard in the bits that come in.
#![tactic(auto)]

mod hearing;
mod radio;
mod sending;

pub use hearing::hear;
pub use radio::Radio;
pub use sending::send;
