// The decoder: syndromes, and the repair by them.
ghost use Rattle.std.specs.Prelude.{◌≡◌, ℕ, suc, ◌<◌, T, slice_index, MatchBool, MatchOption, ◌≢◌};
ghost use Rattle.bits.specs.Distance.{distance};
ghost use Rattle.bits.specs.Lists.{zeros};
ghost use Rattle.gf256.specs.Field.{power};
ghost use Rattle.rs_theory.specs.Code.{is_codeword};
ghost use Rattle.rs_decoding.specs.Search.{InKernel};
ghost use Rattle.reed_solomon.specs.Syndromes.{AreSyndromes};
ghost use Rattle.reed_solomon.specs.Repair.{IsNear, EachNear, Repaired, Found};

use crate::Word;
use crate::encoder::residue;
use gf256::power_of_two;
use rs_decoding::errors::{correct, find_roots};
use rs_decoding::polynomial::{Polynomial, take_in};
use rs_decoding::search::kernel;
use std::array;

// The points of the syndromes, 2^1 .. 2^32.
fn powers() -> [u8; 32]
    ensures { (j : ℕ) → j < 32 → slice_index result j ≡ power 2 (suc j) }
{
    array::from_fn(|j| power_of_two(j + 1))
}

// The values at 2^1 .. 2^32 of what is left of a word by division.
fn values_at_powers(rest: &[u8; 32]) -> [u8; 32]
    ensures { AreSyndromes result rest.now }
{
    let powers = powers();
    let mut s = [0; 32];
    for b in rest {
        take_in(&mut s, &powers, *b);
    }
    s
}

fn all_zero(s: &[u8; 32]) -> bool
    ensures { MatchBool result (s.now ≡ zeros 32) (s.now ≢ zeros 32) }
{
    *s == [0; 32]
}

fn vanishing(bytes: &[u8; 255]) -> bool
    ensures { result ≡ is_codeword bytes.now }
{
    let rest = residue(bytes);
    all_zero(&rest)
}

// At how many places two words differ.
fn differences(a: &[u8; 255], b: &[u8; 255]) -> usize
    ensures { result ≡ distance a.now b.now }
{
    a.iter().zip(b).filter(|&(x, y)| *x != *y).count()
}

// The word without the errors at the roots of the polynomial, if they are no more than 16.
fn corrected_by(polynomial: &Polynomial, bytes: &[u8; 255], s: &[u8; 32]) -> Option<Word>
    requires kernel { InKernel 16 polynomial.now.degree s.now polynomial.now.coefficients }
    requires syndromes { AreSyndromes s.now bytes.now }
    ensures { EachNear bytes.now (λ c. MatchOption result ⊥ (λ v. v.bytes ≡ c)) }
{
    let values = polynomial.values();
    let roots = find_roots(&values)?;
    let mut word = *bytes;
    correct(&mut word, &values, &roots, s);
    Some(Word { bytes: word })
}

// The code word within 16 places, if there is one.
fn candidate(bytes: &[u8; 255], s: &[u8; 32]) -> Option<Word>
    requires { AreSyndromes s.now bytes.now }
    ensures { EachNear bytes.now (λ c. MatchOption result ⊥ (λ v. v.bytes ≡ c)) }
{
    corrected_by(&kernel(s, 16), bytes, s)
}

// How many places were changed, if that led to a code word at no more than 16 places.
fn checked(word: &[u8; 255], bytes: &[u8; 255]) -> Option<usize>
    ensures { MatchOption result (T (is_codeword word.now) → 16 < distance word.now bytes.now) (IsNear bytes.now word.now) }
{
    let changed = differences(word, bytes);
    (changed <= 16 && vanishing(word)).then_some(changed)
}

// The code word within 16 places takes the word's place, or nothing is changed.
fn repair_bytes(bytes: &mut [u8; 255]) -> Option<usize>
    ensures right { MatchOption result (bytes.new ≡ bytes.old) (IsNear bytes.old bytes.new) }
    ensures found { Found bytes.old result bytes.new }
{
    let rest = residue(bytes);
    if all_zero(&rest) {
        return Some(0);
    }
    let s = values_at_powers(&rest);
    let word = candidate(bytes, &s)?;
    let changed = checked(&word.bytes, bytes)?;
    *bytes = word.bytes;
    Some(changed)
}

impl Word {
    // The values at 2^1 .. 2^32: zeros exactly at code words.
    pub fn syndromes(&self) -> [u8; 32]
        ensures { AreSyndromes result self.now.bytes }
    {
        let rest = residue(&self.bytes);
        values_at_powers(&rest)
    }

    pub fn is_codeword(&self) -> bool
        ensures { result ≡ is_codeword self.now.bytes }
    {
        vanishing(&self.bytes)
    }

    // Some k exactly if a code word stands within 16 places: the word is then that code word, and k places were changed. None: the word is as it was.
    pub fn repair(&mut self) -> Option<usize>
        ensures repaired { Repaired self.old.bytes result self.new.bytes }
        ensures found { Found self.old.bytes result self.new.bytes }
    {
        repair_bytes(&mut self.bytes)
    }
}
