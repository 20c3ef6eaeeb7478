// Theorems of repairing, as contracts.
ghost use Rattle.reed_solomon.specs.Repair.{SmallCases};

// One byte that is not zero is always repaired to zeros, and seventeen never are.
pub fn small_cases_stand() -> u8
    ensures { SmallCases }
{
    0
}
