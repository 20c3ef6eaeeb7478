// What costs are added up in: 16 bits where no sum passes them, else 32.
ghost use Rattle.std.specs.Prelude.{◌≡◌, ℕ, ◌+◌, ◌≤◌, nat_le};
ghost use Rattle.std.proofs.Common.{rules};
ghost use Rattle.std.specs.Ordering.{partial_le};

use crate::small::Small;
use std::ops::Add;

pub(crate) trait Sum: Small + From<u16> + Add<Output = Self> + PartialOrd {
    // The number that a sum is, and the greatest that there is.
    ghost number: { Self → ℕ };

    ghost most: { ℕ };

    // What the conversion, `+` and `<=` do, they do to the numbers.
    ghost converts: { (cost : ℕ) (sum : Self) → Self.from_gives cost sum → number sum ≡ cost };

    ghost can_add_up: { (x y : Self) → number x + number y ≤ most → Self.can_add x y };

    ghost adds_up: { (x y z : Self) → Self.add_gives x y z → number z ≡ number x + number y };

    ghost compares: { (x y : Self) → partial_le Self.partial_cmp x y ≡ nat_le (number x) (number y) };
}

impl Sum for u16 {
    ghost number = { λ sum. sum };

    ghost most = { 65535 };

    ghost converts = { Prim.search rules };

    ghost can_add_up = { Prim.search rules };

    ghost adds_up = { Prim.search rules };

    ghost compares = { Prim.search rules };
}

impl Sum for u32 {
    ghost number = { λ sum. sum };

    ghost most = { 4294967295 };

    ghost converts = { Prim.search rules };

    ghost can_add_up = { Prim.search rules };

    ghost adds_up = { Prim.search rules };

    ghost compares = { Prim.search rules };
}
