// The convolutional code's theory: what its decoder looks for, and the theorems about it. The code itself stands in the crate `convolutional`.
#![tactic(auto)]

ghost use Rattle.std.specs.Prelude.{◌≡◌};
ghost use Rattle.conv_theory.specs.Statements.{Optimal, AnyFar, FreeDistance, NearestFound, RowsHold, SmallShown};

// What it costs to take a coded bit for 0, and to take it for 1. A hard bit x is (x, 1 - x); a bit that was never sent is (0, 0).
#[repr(C)]
#[derive(Clone, Copy, PartialEq, Eq, Debug)]
pub struct Cost {
    pub zero: u8,
    pub one: u8,
}

// No other bits of that length would have been sent as something that costs less.
pub fn optimality_stands() -> u8
    ensures { Optimal }
{
    0
}

// The search finds the same, whatever a start in another state than 0 costs, if it is more than every way from state 0.
pub fn any_far_stands() -> u8
    ensures { AnyFar }
{
    0
}

// Two different ways of one length from one state into one state differ at ten bits or more, and some at ten.
pub fn free_distance_stands() -> u8
    ensures { FreeDistance }
{
    0
}

// Of hard bits: the nearest is found, and up to four wrong bits anywhere don't matter.
pub fn nearest_stands() -> u8
    ensures { NearestFound }
{
    0
}

// What one bit 1, and what no bits, are sent as.
pub fn rows_stand() -> u8
    ensures { RowsHold }
{
    0
}

// A code of four states, small enough to follow by hand.
pub fn small_stands() -> u8
    ensures { SmallShown }
{
    0
}
