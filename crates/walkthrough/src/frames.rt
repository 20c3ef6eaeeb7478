// A whole frame: sent, spoiled a little, spoiled more, and garbage.
use super::spoiling::spoil;
use frame::{hear, send};

fn payload() -> [u8; 221] {
    let mut payload = [0u8; 221];
    payload[0..19].copy_from_slice(b"Katydidwire calling");
    payload
}

// At how many places two frames differ.
fn apart(a: &[u8; 4092], b: &[u8; 4092]) -> usize {
    a.iter().zip(b).filter(|(x, y)| x != y).count()
}

fn show_heard(rt: &HostRuntime, bits: &[u8], sent: &[u8; 221], what: &str) -> anyhow::Result<()> {
    match hear(bits) {
        Ok(Some(heard)) => {
            let same = if heard == *sent {
                "the payload that was sent"
            } else {
                "another payload"
            };
            println!(rt; "     {what}: heard, {same}")?;
        }
        Ok(None) => println!(rt; "     {what}: nothing is heard")?,
        Err(refusal) => {
            let number = refusal.code();
            println!(rt; "     {what}: refused {number}")?;
        }
    }
    Ok(())
}

pub fn section(rt: &HostRuntime) -> anyhow::Result<()> {
    rt.println("\n6. A frame")?;
    rt.println(
        "   221 bytes of payload, two of check, 32 of the outer code; the pattern; the inner code: 4,092 bits.",
    )?;
    let sent = payload();
    let mut bits = [0u8; 4092];
    send(&sent, &mut bits);
    show_heard(rt, &bits, &sent, "as it was sent")?;
    let mut four = bits;
    spoil(&mut four, 1000, 4, 1);
    show_heard(rt, &four, &sent, "four bits spoiled")?;
    let mut many = bits;
    spoil(&mut many, 40, 4092, 1);
    let count = apart(&bits, &many);
    println!(rt; "     now {count} bits are spoiled")?;
    show_heard(rt, &many, &sent, "every fortieth bit spoiled")?;
    let mut garbage = bits;
    spoil(&mut garbage, 3, 4092, 1);
    show_heard(rt, &garbage, &sent, "every third bit spoiled")?;
    show_heard(rt, &bits[0..4091], &sent, "4,091 bits")
}
