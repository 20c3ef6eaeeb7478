// Forward through the trellis, column after column: for each of 64 states the cheaper of the two ways into it, and which one that was.
ghost use Rattle.std.specs.Prelude.{◌≡◌, ℕ, ◌+◌, ◌*◌, ◌<◌, ◌≤◌, ◌∷◌, map, length, replicate, if◌then◌else◌, nat_le, slice_index};
ghost use Rattle.conv_theory.specs.Columns.{next_costs, choices, Decided, costs_after};
ghost use Rattle.conv_theory.specs.Search.{cost_of, total};

use crate::heard::Heard;
use crate::sum::Sum;
use conv_theory::Cost;

// The two bits that go out from the even state 2 j at the bit 0. From 2 j + 1, or at the bit 1, each is the other bit; from 2 j + 1 at the bit 1 they are these again.
// Two tables and not one of pairs, with which the column is no longer computed by vectors, and decoding takes eleven times as long.
const FIRST: [u8; 32] = [
    0, 0, 0, 0, 1, 1, 1, 1, 1, 1, 1, 1, 0, 0, 0, 0, 1, 1, 1, 1, 0, 0, 0, 0, 0, 0, 0, 0, 1, 1, 1, 1,
];

const SECOND: [u8; 32] = [
    0, 1, 0, 1, 1, 0, 1, 0, 1, 0, 1, 0, 0, 1, 0, 1, 0, 1, 0, 1, 1, 0, 1, 0, 1, 0, 1, 0, 0, 1, 0, 1,
];

// What it costs to take two coded bits for p and q.
fn branch_cost(x: Cost, y: Cost, p: u8, q: u8) -> u16
    ensures is { result ≡ cost_of x p + cost_of y q }
    ensures small { result ≤ 510 }
{
    let first = if p == 0 { x.zero } else { x.one };
    let second = if q == 0 { y.zero } else { y.one };
    u16::from(first) + u16::from(second)
}

// Of a way from the lower state and one from the higher, the cheaper; at a tie the one from the lower.
fn select<N: Sum>(low: N, high: N) -> (N, u8)
    ensures cost { N.number result.0 ≡ (if nat_le (N.number low) (N.number high) then N.number low else N.number high) }
    ensures decision { result.1 ≡ (if nat_le (N.number low) (N.number high) then 0 else 1) }
{
    if low <= high { (low, 0) } else { (high, 1) }
}

// States 2 j and 2 j + 1 lead into j by the bit 0, and into j + 32 by the bit 1. Written by index: each turn writes two places, j and j + 32.
fn column<N: Sum>(old: &[N; 64], x: Cost, y: Cost, new: &mut [N; 64], decisions: &mut [u8; 64])
    requires { (k : ℕ) → k < 64 → slice_index (map N.number old.now) k + 510 ≤ N.most }
    ensures costs { map N.number new.new ≡ next_costs (map N.number old.now) x y }
    ensures chosen { decisions.new ≡ choices (map N.number old.now) x y }
{
    let (pairs, _) = old.as_chunks::<2>();
    for (j, [low, high]) in pairs.iter().enumerate() {
        let straight = N::from(branch_cost(x, y, FIRST[j], SECOND[j]));
        let crossed = N::from(branch_cost(x, y, 1 - FIRST[j], 1 - SECOND[j]));
        let (cost, decision) = select(*low + straight, *high + crossed);
        new[j] = cost;
        decisions[j] = decision;
        let (cost, decision) = select(*low + crossed, *high + straight);
        new[j + 32] = cost;
        decisions[j + 32] = decision;
    }
}

// Costs before the first column: nothing in state 0, `far` in the others.
fn start<N: Sum>(far: N) -> [N; 64]
    ensures { map N.number result ≡ 0 ∷ replicate 63 (N.number far) }
{
    let mut costs = [far; 64];
    costs[0] = N::from(0);
    costs
}

// Forward over what was heard, all starts but state 0 costing `far`, more than every way. Answers the cost of the way that ends in state 0.
// A sum never passes 1 + 2 totals, and a branch costs at most 510: so `few` leaves room for each.
pub(crate) fn forward<H: Heard, N: Sum>(heard: &[H], far: N, decisions: &mut [[u8; 64]]) -> N
    requires long { length heard.now ≡ 2 * length decisions.old }
    requires above { N.number far ≡ 1 + total (map H.costs heard.now) }
    requires few { 2 * total (map H.costs heard.now) + 511 ≤ N.most }
    ensures decided { Decided (map H.costs heard.now) (length decisions.old) decisions.new }
    ensures cost { N.number result ≡ slice_index (costs_after (map H.costs heard.now) (length decisions.old)) 0 }
{
    let mut old = start(far);
    let mut new = old;
    let (pairs, _) = heard.as_chunks::<2>();
    for (i, [x, y]) in pairs.iter().enumerate() {
        column(&old, x.cost(), y.cost(), &mut new, &mut decisions[i]);
        std::mem::swap(&mut old, &mut new);
    }
    old[0]
}
