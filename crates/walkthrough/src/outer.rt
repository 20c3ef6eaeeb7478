// The outer code: 223 bytes as a word of 255, errors in it, its syndromes, and the repair.
use super::show::Hex;
use super::spoiling::spoil;
use reed_solomon::{Word, encode};
use std::array;

fn show_repair(rt: &HostRuntime, sent: &Word, count: usize) -> anyhow::Result<()> {
    let mut word = *sent;
    spoil(&mut word.bytes, 13, count, 85);
    let syndromes = word.syndromes();
    let text = Hex(&syndromes[0..8]);
    println!(rt; "     {count:2} bytes spoiled   syndromes {text} ..")?;
    match word.repair() {
        Some(changed) => {
            let back = if word.bytes == sent.bytes {
                "the word that was sent"
            } else {
                "another word"
            };
            println!(rt; "        repair: {changed} bytes changed, {back}")?;
        }
        None => rt.println("        repair: no code word within 16 places, nothing changed")?,
    }
    Ok(())
}

pub fn section(rt: &HostRuntime) -> anyhow::Result<()> {
    rt.println("\n4. The outer code")?;
    rt.println(
        "   223 bytes become a word of 255: 32 more make its polynomial zero at 32 places.",
    )?;
    rt.println("   The values there, the syndromes, are zeros as long as nothing is spoiled.")?;
    let message: [u8; 223] = array::from_fn(|i| (i % 256) as u8);
    let sent = encode(&message);
    let front = Hex(&sent.bytes[0..8]);
    let behind = Hex(&sent.bytes[223..231]);
    println!(rt; "     message {front} ..   behind it {behind} ..")?;
    for count in [0, 1, 16, 17] {
        show_repair(rt, &sent, count)?;
    }
    Ok(())
}
