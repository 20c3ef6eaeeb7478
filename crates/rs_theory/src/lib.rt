// The theory of the outer code: code words, their distance, and encoding.
#![tactic(auto)]

ghost use Rattle.rs_theory.specs.Promise.{OuterCode, OuterRows};

// Encoding gives the code words and no others; two of them differ at 33 places or more; within 16 places of any word there is at most one.
pub fn outer_stands() -> u8
    ensures { OuterCode }
{
    0
}

// Values of the generator and of an encoding that were computed elsewhere.
pub fn outer_rows_stand() -> u8
    ensures { OuterRows }
{
    0
}
