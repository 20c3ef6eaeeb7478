// Sending and hearing as a trait, for whatever stands in the place of this crate's own radio. Its clauses also speak of each answer's published number.
ghost use Rattle.std.specs.Prelude.{◌≡◌, false, T, [], length, ◌≢◌};
ghost use Rattle.bits.specs.Lists.{are_bits};
ghost use Rattle.bits.specs.Heard.{Lost, Got};
ghost use Rattle.frame_theory.specs.Frame.{frame, Hears};
ghost use Rattle.frame.specs.Hearing.{Hearing, answer, left};

use bits::Refusal;

pub trait Radio {
    fn send(payload: &[u8; 221], out: &mut [u8; 4092])
        ensures { out.new ≡ frame payload.now };

    fn hear(bits: &[u8]) -> Result<Option<[u8; 221]>, Refusal>
        ensures heard { Hearing bits.now result }
        ensures nothing { answer result ≡ 0 → Hears bits.now Lost }
        ensures payload { answer result ≡ 1 → Hears bits.now (Got (left [] result)) }
        ensures taken { length bits.now ≡ 4092 → T (are_bits bits.now) → answer result ≢ 2 }
        ensures closed { (answer result ≢ 0) → (answer result ≢ 1) → answer result ≡ 2 }
        ensures long { (length bits.now ≢ 4092) → answer result ≡ 2 }
        ensures binary { are_bits bits.now ≡ false → answer result ≡ 2 };
}
