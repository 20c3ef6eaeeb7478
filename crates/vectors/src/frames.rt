// Lines of whole frames: `send PAYLOAD FRAME` and `hear FRAME ANSWER PAYLOAD`, where the answer is 1 for a payload, and 0 for nothing or `refused` for a frame of another length, with zeros behind it.
use super::digits::{bits, bytes};
use frame::{hear, send};
use std::alloc::Global;

pub fn sends(heap: Global, payload: &str, frame: &str) -> anyhow::Result<bool> {
    let payload = bytes::<221>(payload)?;
    let frame = bits(heap, frame)?;
    let mut out = [0u8; 4092];
    send(&payload, &mut out);
    Ok(out.as_slice() == frame.as_slice())
}

// The payload's digits are compared too, zeros where nothing is heard or the frame is refused.
pub fn hears(heap: Global, frame: &str, answer: &str, payload: &str) -> anyhow::Result<bool> {
    let frame = bits(heap, frame)?;
    let payload = bytes::<221>(payload)?;
    let (heard, out) = match hear(&frame) {
        Ok(Some(payload)) => ("1", payload),
        Ok(None) => ("0", [0; 221]),
        Err(_) => ("refused", [0; 221]),
    };
    Ok(heard == answer && out == payload)
}
