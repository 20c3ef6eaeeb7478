// What is heard of a coded bit: a hard bit, or what it costs to take it for 0 and for 1.
ghost use Rattle.std.specs.Prelude.{◌≡◌, ◌*◌, ◌≤◌, max, length};
ghost use Rattle.conv_theory.specs.declared.Cost.{Cost as CostOfBit};
ghost use Rattle.conv_theory.specs.Search.{hard as hard_of, total};

use crate::small::Small;
use conv_theory::Cost;

pub(crate) trait Heard: Small {
    ghost costs: { Self → CostOfBit };

    fn cost(self) -> Cost
        ensures { result ≡ costs self };
}

impl Heard for u8 {
    ghost costs = { hard_of };

    fn cost(self) -> Cost {
        Cost {
            zero: self,
            one: 1u8.saturating_sub(self),
        }
    }
}

impl Heard for Cost {
    ghost costs = { λ cost. cost };

    fn cost(self) -> Cost {
        self
    }
}

// What no bits cost more than.
pub(crate) fn greatest(costs: &[Cost]) -> u32
    requires { length costs.now ≤ 2000012 }
    ensures is { result ≡ total costs.now }
    ensures small { result ≤ 255 * length costs.now }
{
    // A `sum` of the chain is not known to be so small.
    let mut sum: u32 = 0;
    for c in costs {
        sum += u32::from(c.zero.max(c.one));
    }
    sum
}
