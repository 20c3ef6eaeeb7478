// The inner code: bits as coded bits, some of them spoiled, and the nearest way back.
use super::show::Digits;
use convolutional::{decode_hard, encode};

fn show_coded(rt: &HostRuntime, bits: &[u8], coded: &mut [u8]) -> anyhow::Result<()> {
    encode(bits, coded)?;
    let from = Digits(bits);
    let to = Digits(coded);
    println!(rt; "     bits {from} go out as {to}")?;
    Ok(())
}

fn show_decoded(rt: &HostRuntime, heard: &[u8; 28]) -> anyhow::Result<()> {
    let mut decisions = [[0u8; 64]; 14];
    let mut bits = [0u8; 8];
    let cost = decode_hard(heard, &mut decisions, &mut bits)?;
    let from = Digits(heard);
    let to = Digits(&bits);
    println!(rt; "     heard {from}: decoded {to}, {cost} bits away")?;
    Ok(())
}

pub fn section(rt: &HostRuntime) -> anyhow::Result<()> {
    rt.println("\n5. The inner code")?;
    rt.println(
        "   For each bit two go out, sums of it and some of the six bits before it; six zeros follow.",
    )?;
    show_coded(rt, &[1], &mut [0; 14])?;
    let mut coded = [0u8; 28];
    show_coded(rt, &[1, 0, 1, 1, 0, 0, 1, 0], &mut coded)?;
    rt.println("   Decoding finds the bits whose coded bits differ least from those heard.")?;
    show_decoded(rt, &coded)?;
    for place in [0, 5, 12, 20] {
        coded[place] ^= 1;
    }
    show_decoded(rt, &coded)
}
