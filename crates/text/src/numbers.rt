// Numbers as arguments: decimal digits only (the library's `parse` also takes a sign).
ghost use Rattle.std.specs.Prelude.{◌≡◌, ◌≤◌};
ghost use Rattle.text.specs.Numbers.{Appended, Counted, NumberRead};

use bits::Refusal;

// One digit more behind a number, if the number then is at most `most`.
fn appended(v: u64, x: u8, most: u64) -> Result<u64, Refusal>
    ensures { Appended v x most result }
{
    if !x.is_ascii_digit() {
        return Err(Refusal::UnknownText);
    }
    let next = 10 * u128::from(v) + u128::from(x - b'0');
    if next > u128::from(most) {
        return Err(Refusal::UnknownText);
    }
    Ok(next as u64)
}

// The value of decimal digits, any number of them, if it is at most `most`.
#[tactic(auto, using(crate::proofs::Numerals::are_decimal_more, crate::proofs::Numerals::are_decimal_all, crate::proofs::Numerals::decimal_from_more, crate::proofs::Numerals::decimal_from_all, crate::proofs::Numerals::refused_at))]
fn value(text: &[u8], most: u64) -> Result<u64, Refusal>
    ensures { Counted text.now most result }
{
    let mut v: u64 = 0;
    for x in text {
        v = appended(v, *x, most)?;
    }
    Ok(v)
}

// Reads a text as a number of at most `most`: at least one digit, no sign or space, leading zeros allowed.
pub fn number(text: &[u8], most: u64) -> Result<u64, Refusal>
    ensures { NumberRead text.now most result }
{
    if text.is_empty() {
        return Err(Refusal::UnknownText);
    }
    value(text, most)
}

// The number of a file: 0 to 255. The casts here lose nothing by the bound, so that no conversion that may fail is needed.
pub fn file_number(text: &[u8]) -> Result<u8, Refusal>
    ensures { NumberRead text.now 255 result }
{
    Ok(number(text, 255)? as u8)
}

// A probability in parts of 65,536: 0 to 65,536 of them.
pub fn chance(text: &[u8]) -> Result<u32, Refusal>
    ensures { NumberRead text.now 65536 result }
{
    Ok(number(text, 65536)? as u32)
}
