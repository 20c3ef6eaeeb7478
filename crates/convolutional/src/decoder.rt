// The search for the cheapest way through the trellis, from state 0 to state 0: forward over the columns, and back along the decisions.
ghost use Rattle.std.specs.Prelude.{◌≡◌, ℕ, ◌+◌, ◌*◌, ◌<◌, ◌≤◌, true, false, T, List, map, length, is_ok, Err, MatchResult, OnOk, slice_set};
ghost use Rattle.bits.specs.declared.Refusal.TheVariants.{NoFrame, WrongMemory};
ghost use Rattle.bits.specs.Distance.{distance};
ghost use Rattle.bits.specs.Lists.{are_bits};
ghost use Rattle.convolutional.specs.Lengths.{hard_fits, costs_fit};
ghost use Rattle.conv_theory.specs.Columns.{Decided};
ghost use Rattle.conv_theory.specs.declared.Cost.{Cost as CostOfBit};
ghost use Rattle.conv_theory.specs.Code.{sent};
ghost use Rattle.conv_theory.specs.Search.{best, cost_of_all, heard_bits, total};
ghost use Rattle.conv_theory.specs.Statements.{Cheapest, Nearest};

use crate::heard::{Heard, greatest};
use crate::lengths::{all_bits, memory_fits};
use crate::sum::Sum;
use crate::trellis::forward;
use bits::Refusal;
use conv_theory::Cost;

// The most bits that are searched for: in hard bits, and in costs.
const MOST_HARD: usize = 16_250;

const MOST: usize = 1_000_000;

// Writes the bit at place i, if there is one. By index: of what `get_mut` lends out a proof keeps only the length.
fn put(out: &mut [u8], i: usize, bit: u8)
    ensures { out.new ≡ slice_set out.old i bit }
{
    if i < out.len() {
        out[i] = bit;
    }
}

// Back from state 0 at the end: the newest bit of each state is the bit that led there, and the decision names the state before.
fn read_back(decisions: &[[u8; 64]], out: &mut [u8])
    requires { length decisions.now ≡ length out.old + 6 }
    ensures { (cs : List CostOfBit) → length cs ≡ 2 * (length out.old + 6) → Decided cs (length out.old + 6) decisions.now → out.new ≡ best cs }
{
    let mut state: usize = 0;
    for (i, row) in decisions.iter().enumerate().rev() {
        put(out, i, (state / 32) as u8);
        state = 2 * (state % 32) + usize::from(row[state] % 2);
    }
}

// What is found of what was heard, and what it costs. A start in another state than 0 costs `far`.
fn search<H: Heard, N: Sum>(heard: &[H], far: N, decisions: &mut [[u8; 64]], out: &mut [u8]) -> N
    requires heard { length heard.now ≡ 2 * (length out.old + 6) }
    requires columns { length decisions.old ≡ length out.old + 6 }
    requires above { N.number far ≡ 1 + total (map H.costs heard.now) }
    requires few { 2 * total (map H.costs heard.now) + 511 ≤ N.most }
    ensures found { out.new ≡ best (map H.costs heard.now) }
    ensures cost { N.number result ≡ cost_of_all (map H.costs heard.now) (sent (best (map H.costs heard.now))) }
{
    let least = forward(heard, far, decisions);
    read_back(decisions, out);
    least
}

// Hard bits, each a byte 0 or 1: the n bits that would have been sent as something nearest to these 2 (n + 6), and at how many bits that differs.
// `decisions` is memory for n + 6 columns. Refuses, and leaves `out` as it was, where the lengths don't fit one another, or n is above 16,250, or a byte is above 1.
#[tactic(auto, using(crate::proofs::Decoding::hard_total))]
pub fn decode_hard(bits: &[u8], decisions: &mut [[u8; 64]], out: &mut [u8]) -> Result<u32, Refusal>
    ensures found { MatchResult result (λ d. (out.new ≡ heard_bits bits.now) × (d ≡ distance (sent (heard_bits bits.now)) bits.now)) (λ _. out.new ≡ out.old) }
    ensures nearest { OnOk result (Nearest (length out.old) bits.now out.new) }
    ensures memory { hard_fits (length bits.now) (length decisions.old) (length out.old) ≡ false → result ≡ Err WrongMemory }
    ensures binary { T (hard_fits (length bits.now) (length decisions.old) (length out.old)) → are_bits bits.now ≡ false → result ≡ Err NoFrame }
    ensures taken { T (hard_fits (length bits.now) (length decisions.old) (length out.old)) → T (are_bits bits.now) → is_ok result ≡ true }
{
    memory_fits(MOST_HARD, bits.len(), decisions.len(), out.len())?;
    all_bits(bits)?;
    let distance = search(bits, 1 + bits.len() as u16, decisions, out);
    Ok(u32::from(distance))
}

// Costs, a pair for each coded bit: the n bits that would have been sent as something that costs least, and what it costs.
// `decisions` is memory for n + 6 columns. Refuses, and leaves `out` as it was, where the lengths don't fit one another, or n is above 1,000,000.
pub fn decode(costs: &[Cost], decisions: &mut [[u8; 64]], out: &mut [u8]) -> Result<u32, Refusal>
    ensures found { MatchResult result (λ least. (out.new ≡ best costs.now) × (least ≡ cost_of_all costs.now (sent (best costs.now)))) (λ _. out.new ≡ out.old) }
    ensures cheapest { OnOk result (Cheapest (length out.old) costs.now out.new) }
    ensures memory { costs_fit (length costs.now) (length decisions.old) (length out.old) ≡ false → result ≡ Err WrongMemory }
    ensures taken { T (costs_fit (length costs.now) (length decisions.old) (length out.old)) → is_ok result ≡ true }
{
    memory_fits(MOST, costs.len(), decisions.len(), out.len())?;
    Ok(search(costs, 1 + greatest(costs), decisions, out))
}
