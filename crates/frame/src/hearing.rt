// What is heard in the bits of a frame: the inner code, the pattern, the repair, the check.
ghost use Rattle.std.specs.Prelude.{◌≡◌, take, MatchResult};
ghost use Rattle.bits.specs.declared.Refusal.TheVariants.{NoFrame};
ghost use Rattle.bits.specs.Heard.{heard_of};
ghost use Rattle.bits.specs.Bytes.{all_bytes};
ghost use Rattle.bits.specs.Pattern.{patterned};
ghost use Rattle.conv_theory.specs.Search.{heard_bits};
ghost use Rattle.frame_theory.specs.Frame.{passes, word_in, Taken};
ghost use Rattle.frame_theory.specs.Promise.{FrameBits};
ghost use Rattle.frame.specs.Hearing.{Hearing};

use bits::{Refusal, add_pattern, crc16, pack};
use convolutional::decode_hard;
use reed_solomon::Word;

// Whether the first 221 bytes have the check that the next two hold.
fn check_is_right(word: &Word) -> bool
    ensures { result ≡ passes word.now.bytes }
{
    crc16(&word.bytes[..221]) == u16::from_be_bytes([word.bytes[221], word.bytes[222]])
}

// The bits that the inner code's decoder finds. Not just 4,092 bits, or a byte above 1, is refused.
fn decode(bits: &[u8]) -> Result<[u8; 2040], Refusal>
    ensures { MatchResult result (λ line. FrameBits bits.now × (line ≡ heard_bits bits.now)) (λ e. (FrameBits bits.now → ⊥) × (e ≡ NoFrame)) }
{
    if bits.len() != 4092 {
        return Err(Refusal::NoFrame);
    }
    let mut decisions = [[0u8; 64]; 2046];
    let mut line = [0u8; 2040];
    decode_hard(bits, &mut decisions, &mut line)?;
    Ok(line)
}

// The word of the bits, with the pattern taken off again.
fn descramble(mut line: [u8; 2040]) -> Word
    ensures { result.bytes ≡ all_bytes 255 (patterned line) }
{
    add_pattern(&mut line);
    let mut word = Word { bytes: [0; 255] };
    let Ok(()) = pack(&line, &mut word.bytes) else {
        unreachable!()
    };
    word
}

// The word that the best way through the inner code gives.
fn word_in(bits: &[u8]) -> Result<Word, Refusal>
    ensures { MatchResult result (λ word. FrameBits bits.now × (word.bytes ≡ word_in bits.now)) (λ e. (FrameBits bits.now → ⊥) × (e ≡ NoFrame)) }
{
    decode(bits).map(descramble)
}

// The payload that a word begins with.
fn payload(word: &Word) -> [u8; 221]
    ensures { result ≡ take 221 word.now.bytes }
{
    *word.bytes.first_chunk().unwrap()
}

// The payload of the code word within reach, if its check is right.
fn take_payload(mut word: Word) -> Option<[u8; 221]>
    ensures { Taken word.bytes (heard_of result) }
{
    word.repair()?;
    check_is_right(&word).then_some(payload(&word))
}

// What is heard in the bits: a payload, or nothing. Not just 4,092 bits, or a byte above 1, is refused.
pub fn hear(bits: &[u8]) -> Result<Option<[u8; 221]>, Refusal>
    ensures { Hearing bits.now result }
{
    let word = word_in(bits)?;
    Ok(take_payload(word))
}
