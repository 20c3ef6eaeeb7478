// Lines made by hand, byte by byte and with nothing of the library's that writes payloads, and what a line says.
use frame::Radio;
use link::TheLink;
use text::{FRAME, Line, read_bits};

// A line of these bytes.
pub fn line_of(text: &[u8]) -> Line {
    let mut line = Line::new();
    let _ = line.take_in(text);
    line
}

// The line of a payload: kind, file, number, the count of bytes behind the head, and the first four of them.
pub fn said_by([kind, file, number, count]: [u8; 4], bytes: [u8; 4]) -> Line {
    let mut payload = [0u8; 221];
    payload[0..5].copy_from_slice(&[kind, file, 0, number, count]);
    payload[7..11].copy_from_slice(&bytes);
    let mut bits = [0u8; FRAME];
    <TheLink as Radio>::send(&payload, &mut bits);
    let mut line = Line::new();
    line.write(&bits);
    line
}

// The payload that a line says, if it says one.
fn payload_of(line: &Line) -> Option<[u8; 221]> {
    let bits = read_bits::<FRAME>(line.text()).ok()??;
    <TheLink as Radio>::hear(&bits).ok()?
}

// What a line says: kind, file, number; zeros for an empty one.
pub fn told(line: &Line) -> (u8, u8, u16) {
    let [kind, file, high, low, ..] = payload_of(line).unwrap_or([0; 221]);
    (kind, file, u16::from_be_bytes([high, low]))
}
