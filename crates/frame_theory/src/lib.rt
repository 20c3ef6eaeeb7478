// Frames as definitions and theorems: what a payload is sent as, what is heard, and why spoiled bits do not matter.
#![tactic(auto)]

ghost use Rattle.frame_theory.specs.Promise.{FrameRight};

// Up to four wrong bits anywhere, or 16 wrong bytes behind the inner code, don't matter; what is heard is one thing only, and a payload.
pub fn frames_stand() -> u8
    ensures { FrameRight }
{
    0
}
