// Both sides of a file transfer as machines, all that can happen between them, and what is promised of it: each function's contract names one promise.
#![tactic(auto)]

pub mod onward;

ghost use Rattle.transfer_theory.specs.Cases.{CasesHold};
ghost use Rattle.transfer_theory.specs.Promise.{FileRight, ForeignIsNothing, LengthRight, CompleteStays};

// Whatever the line loses, repeats, delays or spoils: what is handed over is the file.
pub fn file_stands() -> u8
    ensures { FileRight }
{
    0
}

// A payload of another file leaves both sides as they are.
pub fn foreign_stands() -> u8
    ensures { ForeignIsNothing }
{
    0
}

// A length once heard is the file's, and a receiver that is complete stays so.
pub fn length_stands() -> u8
    ensures length { LengthRight }
    ensures complete { CompleteStays }
{
    0
}

// The cases at the edges: the empty file, a file of one part and a byte, a gap between two parts.
pub fn cases_stand() -> u8
    ensures { CasesHold }
{
    0
}
