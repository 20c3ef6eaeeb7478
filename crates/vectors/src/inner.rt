// Lines of the inner code: `encode BITS CODED` and `decode HEARD COST BITS`. The other decoder breaks ties as this one does, so the bits are compared too.
use super::digits::bits;
use convolutional::{decode_hard, encode};
use std::alloc::Global;

pub fn encodes(heap: Global, from: &str, coded: &str) -> anyhow::Result<bool> {
    let from = bits(heap, from)?;
    let coded = bits(heap, coded)?;
    let mut out = vec![in heap; 0u8; coded.len()]?;
    let done = encode(&from, &mut out).is_ok();
    Ok(done && out == coded)
}

pub fn decodes(heap: Global, heard: &str, cost: &str, sent: &str) -> anyhow::Result<bool> {
    let heard = bits(heap, heard)?;
    let cost = cost.parse::<u32>()?;
    let sent = bits(heap, sent)?;
    let mut decisions = vec![in heap; [0u8; 64]; sent.len().saturating_add(6)]?;
    let mut out = vec![in heap; 0u8; sent.len()]?;
    let found = decode_hard(&heard, &mut decisions, &mut out);
    Ok(found.ok() == Some(cost) && out == sent)
}
