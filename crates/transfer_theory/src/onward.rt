// The way on: each function's contract names one promise, for any line.
ghost use Rattle.std.specs.Prelude.{ℕ, List};
ghost use Rattle.bits.specs.Heard.{Heard};
ghost use Rattle.transfer_theory.specs.Evening.{BadEvening};
ghost use Rattle.transfer_theory.specs.Onward.{SaysPayloads, Onward, WholeLine, OnwardBits};
ghost use Rattle.transfer_theory.specs.Orders.{HearingLaws};
ghost use Rattle.transfer_theory.specs.Rounds.{Lockstep};

// Any line: what may be heard of a payload that was said.
pub trait AnyLine {
    ghost comes: { List ℕ → Heard → Type 0 };
}

// Any frames: the bits of a payload, and what is heard in bits.
pub trait AnyFrames {
    ghost frame: { List ℕ → List ℕ };

    ghost hears: { List ℕ → Heard → Type 0 };
}

// All that either side says is 221 bytes.
pub fn payloads_stand() -> u8
    ensures { SaysPayloads }
{
    0
}

// From every state that can come about with nothing false heard, at most parts + 3 frames lead to the file handed over and the sender told.
pub fn onward_stands<L: AnyLine>() -> u8
    ensures { Onward L.AnyLine.comes }
{
    0
}

// The plainest line there is, which brings each payload as it is, is one of those.
pub fn whole_line_stands() -> u8
    ensures { WholeLine }
{
    0
}

// The same over frames of so many bits of which a few may be spoiled.
pub fn onward_bits_stands<F: AnyFrames>() -> u8
    ensures { (bits e : ℕ) → OnwardBits F.AnyFrames.hears F.AnyFrames.frame bits e }
{
    0
}

// Rounds as programs play them: parts + 1 in a row always end with the file handed over and the sender told, and from the start no fewer do.
pub fn lockstep_stands<L: AnyLine>() -> u8
    ensures { Lockstep L.AnyLine.comes }
{
    0
}

// Hearing twice is hearing once, the order is nothing, complete stays complete, a slot once filled stays as it is, and what is not looked at does not matter.
pub fn hearing_laws_stand() -> u8
    ensures { HearingLaws }
{
    0
}

// A bad evening: two good rounds in a row bring a missing part or end it, and parts + 1 such pairs bring the file, whatever lies between them that is not false.
pub fn evening_stands<L: AnyLine>() -> u8
    ensures { BadEvening L.AnyLine.comes }
{
    0
}
