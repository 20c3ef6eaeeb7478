// The lowest layer: bytes as bits, the check of 16 bits, the pseudo-random pattern.
use super::show::{Digits, Hex};
use bits::{add_pattern, bits_of, byte_of, crc16, pack};

pub fn bits_section(rt: &HostRuntime) -> anyhow::Result<()> {
    rt.println("\n1. Bytes as bits")?;
    rt.println("   A byte goes out as eight bits, the highest first.")?;
    for b in *b"Hi!" {
        let bits = bits_of(b);
        let back = byte_of(&bits);
        let text = Digits(&bits);
        println!(rt; "     byte {b:3} ({b:02x})   bits {text}   and back {back:02x}")?;
    }
    Ok(())
}

pub fn check_section(rt: &HostRuntime) -> anyhow::Result<()> {
    rt.println("\n2. The check")?;
    rt.println("   Sixteen bits computed from a payload (CRC-16) go out behind it.")?;
    rt.println("   Whoever hears them computes them again: a spoiled payload is found out.")?;
    let right = crc16(b"123456789");
    let wrong = crc16(b"123456788");
    println!(rt; "     123456789   check {right:04x}")?;
    println!(rt; "     123456788   check {wrong:04x}")?;
    Ok(())
}

// Forty bits as the five bytes that they pack into.
fn show_packed(rt: &HostRuntime, what: &str, bits: &[u8; 40]) -> anyhow::Result<()> {
    let mut bytes = [0u8; 5];
    pack(bits, &mut bytes)?;
    let text = Hex(&bytes);
    println!(rt; "     {what:16}  {text}")?;
    Ok(())
}

pub fn pattern_section(rt: &HostRuntime) -> anyhow::Result<()> {
    rt.println("\n3. The pattern")?;
    rt.println(
        "   A fixed pattern is added to the bits modulo 2, so that a payload of zeros is no long silence.",
    )?;
    rt.println("   Added once more, it gives the bits back.")?;
    let mut bits = [0u8; 40];
    show_packed(rt, "five bytes", &bits)?;
    add_pattern(&mut bits);
    show_packed(rt, "with the pattern", &bits)?;
    add_pattern(&mut bits);
    show_packed(rt, "added once more", &bits)
}
