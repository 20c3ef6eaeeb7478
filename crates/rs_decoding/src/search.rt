// The search for the error locators: a polynomial that vanishes at each of them, from the syndromes.
ghost use Rattle.std.specs.Prelude.{◌≡◌, ◌<◌, ◌≤◌, MatchOption, drop};
ghost use Rattle.rs_decoding.specs.Decoding.{dot, combine};
ghost use Rattle.rs_decoding.specs.Search.{Topped, Pivots, Reduced, FitsRow, InKernel, pivot_count};

use crate::arithmetic::{multiply_add, quotient};
use crate::polynomial::Polynomial;

// Of a row: a vector, its product with the row, which is not zero, while that with each row before is.
#[derive(Clone, Copy)]
struct Pivot {
    head: u8,
    vector: [u8; 17],
}

fn dot_product(vector: &[u8; 17], s: &[u8; 32], i: usize) -> u8
    requires { i < 16 }
    ensures { result ≡ dot vector.now (drop i s.now) }
{
    vector
        .iter()
        .zip(&s[i..])
        .fold(0, |sum, (a, b)| multiply_add(sum, *a, *b))
}

fn add_multiple(vector: &mut [u8; 17], factor: u8, other: &[u8; 17])
    ensures { vector.new ≡ combine factor vector.old other.now }
{
    // by place: of a slice written through `zip` a proof knows the length alone
    for (j, entry) in vector.iter_mut().enumerate() {
        *entry = multiply_add(*entry, factor, other[j]);
    }
}

// Makes the vector orthogonal to one row after the other, by means of the pivots. Some: the first row that has none and that it is not orthogonal to, and the product with it.
// Pivots, syndromes and rows stay parameters, and their bound a clause each time: they meet in this one private function alone.
fn reduce(
    vector: &mut [u8; 17],
    pivots: &[Option<Pivot>; 16],
    s: &[u8; 32],
    rows: usize,
) -> Option<(usize, u8)>
    requires few { rows ≤ 16 }
    requires pivots { Pivots rows s.now pivots.now }
    requires topped { Topped (pivot_count pivots.now) vector.old }
    ensures { MatchOption result (Reduced rows (pivot_count pivots.now) s.now vector.new) (λ f. FitsRow rows f.0 f.1 s.now pivots.now vector.new) }
{
    for (i, pivot) in pivots[..rows].iter().enumerate() {
        let d = dot_product(vector, s, i);
        if d != 0 {
            match pivot {
                Some(p) => add_multiple(vector, quotient(d, p.head), &p.vector),
                None => return Some((i, d)),
            }
        }
    }
    None
}

// A vector that is not zero and orthogonal to the first rows: one vector more is tried than there are rows, and each that is not orthogonal becomes the pivot of a row.
#[tactic(auto, using(crate::proofs::Reduce::no_room, crate::proofs::Reduce::not_another))]
pub fn kernel(s: &[u8; 32], rows: usize) -> Polynomial
    requires { rows ≤ 16 }
    ensures { InKernel rows result.degree s.now result.coefficients }
{
    let mut pivots = [None; 16];
    for degree in 0..=rows {
        let mut vector = [0; 17];
        vector[degree] = 1;
        match reduce(&mut vector, &pivots, s, rows) {
            Some((i, head)) => pivots[i] = Some(Pivot { head, vector }),
            None => {
                return Polynomial {
                    coefficients: vector,
                    degree,
                };
            }
        }
    }
    unreachable()
}
