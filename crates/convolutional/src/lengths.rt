// What is tested before anything is written.
ghost use Rattle.std.specs.Prelude.{◌≡◌, ◌+◌, ◌*◌, T, false, MatchResult, ◌≢◌};
ghost use Rattle.bits.specs.declared.Refusal.TheVariants.{NoFrame, WrongMemory};
ghost use Rattle.bits.specs.Lists.{are_bits};
ghost use Rattle.convolutional.specs.Lengths.{memory_fits};

use bits::Refusal;

// Refuses unless n bits are sent as just so many.
pub(crate) fn sent_as(n: usize, coded: usize) -> Result<(), Refusal>
    ensures { MatchResult result (λ _. coded ≡ 2 * (n + 6)) (λ e. (coded ≢ 2 * (n + 6)) × (e ≡ WrongMemory)) }
{
    if coded % 2 == 0 && (coded / 2).checked_sub(6) == Some(n) {
        Ok(())
    } else {
        Err(Refusal::WrongMemory)
    }
}

// Refuses unless each byte is 0 or 1. By the greatest: `all` stops at the first above, and encoding takes half as long again.
pub(crate) fn all_bits(bits: &[u8]) -> Result<(), Refusal>
    ensures { MatchResult result (λ _. T (are_bits bits.now)) (λ e. (are_bits bits.now ≡ false) × (e ≡ NoFrame)) }
{
    if bits.iter().fold(0u8, |greatest, bit| greatest.max(*bit)) < 2 {
        Ok(())
    } else {
        Err(Refusal::NoFrame)
    }
}

// Refuses unless the lengths fit one another, and there are no more than `most` bits. Four numbers and no struct: one call has them together.
pub(crate) fn memory_fits(
    most: usize,
    coded: usize,
    columns: usize,
    bits: usize,
) -> Result<(), Refusal>
    ensures { MatchResult result (λ _. T (memory_fits most coded columns bits)) (λ e. (memory_fits most coded columns bits ≡ false) × (e ≡ WrongMemory)) }
{
    sent_as(bits, coded)?;
    if coded / 2 == columns && bits <= most {
        Ok(())
    } else {
        Err(Refusal::WrongMemory)
    }
}
