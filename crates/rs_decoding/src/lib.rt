// Finding the errors in a word from its syndromes: their places, as the roots of a polynomial, and their values. The theory of it, and the functions that do it.
#![tactic(auto)]

mod arithmetic;
pub mod errors;
pub mod polynomial;
pub mod search;
