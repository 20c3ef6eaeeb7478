// The codes and frames for C and for whatever calls C. A slice is passed as a pointer and then its length; a buffer of another length than it must have is answered with 4 and left as it was.
#![tactic(auto)]

ghost use Rattle.capi.specs.Calls.{Sends, Hearing, Encodes, Repairs, Spreads, Decodes};

mod codes;
mod frames;
mod numbers;

use numbers::{done, found};

// The frame of 221 bytes, 4,092 bits: 0.
#[unsafe(no_mangle)]
pub extern "C" fn kw_send(payload: &[u8], bits: &mut [u8]) -> u32
    ensures { Sends payload.now bits.old bits.new result }
{
    done(frames::send(payload, bits))
}

// What is heard in the bits: 1 a payload, 0 nothing, 2 not just 4,092 bits or a byte above 1.
#[unsafe(no_mangle)]
pub extern "C" fn kw_hear(bits: &[u8], payload: &mut [u8]) -> u32
    ensures { Hearing bits.now payload.old payload.new result }
{
    found(frames::hear(bits, payload))
}

// The code word of 223 bytes: 0.
#[unsafe(no_mangle)]
pub extern "C" fn kw_encode(message: &[u8], word: &mut [u8]) -> u32
    ensures { Encodes message.now word.old word.new result }
{
    done(codes::encode(message, word))
}

// The code word within 16 places: 1 and the count of bytes changed, or 0 and nothing changed.
#[unsafe(no_mangle)]
pub extern "C" fn kw_repair(word: &mut [u8], changed: &mut u32) -> u32
    ensures { Repairs word.old word.new changed.old changed.new result }
{
    found(codes::repair(word, changed))
}

// n bits as 2 (n + 6): 0, or 2 for a byte above 1.
#[unsafe(no_mangle)]
pub extern "C" fn kw_inner_encode(bits: &[u8], out: &mut [u8]) -> u32
    ensures { Spreads bits.now out.old out.new result }
{
    done(convolutional::encode(bits, out))
}

// 4,092 bits heard as the 2,040 whose coded bits are nearest: 0, or 2 for a byte above 1.
#[unsafe(no_mangle)]
pub extern "C" fn kw_inner_decode(heard: &[u8], out: &mut [u8], cost: &mut u32) -> u32
    ensures { Decodes heard.now out.old out.new cost.old cost.new result }
{
    done(codes::decode(heard, out, cost))
}
