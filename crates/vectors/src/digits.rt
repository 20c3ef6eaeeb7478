// Hexadecimal digits, the letters small ones, as bytes and as bits.
use anyhow::{Context, bail};
use hex::{FromHex, FromHexError};
use std::alloc::Global;

// Just N bytes, two digits each.
pub fn bytes<const N: usize>(text: &str) -> anyhow::Result<[u8; N]> {
    match <[u8; N]>::from_hex(text) {
        Err(FromHexError::OddLength | FromHexError::InvalidStringLength) => {
            bail!("another number of bytes")
        }
        Ok(bytes) if !text.bytes().any(|c| c.is_ascii_uppercase()) => Ok(bytes),
        _ => bail!("not a hexadecimal digit"),
    }
}

// Four bits to a digit, the highest first; a dash stands for none.
pub fn bits(heap: Global, text: &str) -> anyhow::Result<Vec<u8>> {
    let mut out = Vec::new(heap);
    if text == "-" {
        return Ok(out);
    }
    for c in text.chars() {
        let digit = c
            .to_digit(16)
            .filter(|_| !c.is_ascii_uppercase())
            .context("not a hexadecimal digit")?;
        for weight in [8, 4, 2, 1] {
            out.push(u8::from(digit & weight != 0))?;
        }
    }
    Ok(out)
}
