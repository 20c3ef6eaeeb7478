// A payload as a frame: its check behind it, the outer code, the pattern, the inner code.
ghost use Rattle.std.specs.Prelude.{◌≡◌, T};
ghost use Rattle.bits.specs.Lists.{are_bits};
ghost use Rattle.conv_theory.specs.Code.{sent as sent_as};
ghost use Rattle.frame_theory.specs.Frame.{checked, carrier as carrier_of, scrambled as scrambled_of, frame as frame_of};

use bits::{add_pattern, crc16, unpack};
use reed_solomon::Word;

// The payload with its check behind it, the high byte first.
fn with_check(payload: &[u8; 221]) -> [u8; 223]
    ensures { result ≡ checked payload.now }
{
    let mut message = [0; 223];
    message[..221].copy_from_slice(payload);
    message[221..].copy_from_slice(&crc16(payload).to_be_bytes());
    message
}

fn carrier(payload: &[u8; 221]) -> Word
    ensures { result.bytes ≡ carrier_of payload.now }
{
    let message = with_check(payload);
    reed_solomon::encode(&message)
}

// The bits of a word with the pattern added.
fn scramble(word: &Word) -> [u8; 2040]
    ensures is { result ≡ scrambled_of word.now.bytes }
    ensures binary { T (are_bits result) }
{
    let mut line = [0; 2040];
    let Ok(()) = unpack(&word.bytes, &mut line) else {
        unreachable!()
    };
    add_pattern(&mut line);
    line
}

// The bits as the inner code sends them.
fn protect(line: &[u8; 2040], out: &mut [u8; 4092])
    requires { T (are_bits line.now) }
    ensures { out.new ≡ sent_as line.now }
{
    let Ok(()) = convolutional::encode(line, out) else {
        unreachable!()
    };
}

// The frame of a payload.
pub fn send(payload: &[u8; 221], out: &mut [u8; 4092])
    ensures { out.new ≡ frame_of payload.now }
{
    let word = carrier(payload);
    protect(&scramble(&word), out);
}
