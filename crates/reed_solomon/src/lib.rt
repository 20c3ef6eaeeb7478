// The outer code: words of 255 bytes, their encoding, their syndromes, and a repair that finds every code word within 16 places.
#![tactic(auto)]

mod decoder;
mod encoder;
mod rows;
mod theorems;

pub use encoder::{encode, residue};
pub use theorems::small_cases_stand;

// A word: the coefficients of a polynomial, the highest first.
#[derive(Clone, Copy, Debug, PartialEq, Eq)]
pub struct Word {
    pub bytes: [u8; 255],
}
