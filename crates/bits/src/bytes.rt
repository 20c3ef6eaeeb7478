// Bytes to bits and back, the highest bit of each byte first.
ghost use Rattle.std.specs.Prelude.{◌≡◌, ◌+◌, ◌*◌, ◌≤◌, ◌++◌, length, take, drop, MatchResult, ◌≢◌};
ghost use Rattle.bits.specs.Bytes.{bits_of, all_bits, byte_of, all_bytes};
ghost use Rattle.bits.specs.Packing.{Unpacked, Packed};

use super::Refusal;

// The eight bits at once: a product puts a copy of the byte at each of eight places, each moved by one more, and of each copy one bit is kept.
#[tactic(auto, using(crate::proofs::Words::spread_bits))]
pub fn bits_of(b: u8) -> [u8; 8]
    ensures { result ≡ bits_of b }
{
    let copies = u64::from(b).wrapping_mul(0x8040_2010_0804_0201);
    ((copies & 0x8080_8080_8080_8080) / 128).to_le_bytes()
}

// The byte of eight bits at once: the lowest bits of all stand in one word, and a product brings them together in its highest byte.
// Of a number above 1 only the lowest bit counts.
#[tactic(auto, using(crate::proofs::Words::gathered_bits))]
pub fn byte_of(bits: &[u8; 8]) -> u8
    ensures { result ≡ byte_of bits.now }
{
    let lowest = u64::from_le_bytes(*bits) & 0x0101_0101_0101_0101;
    (lowest.wrapping_mul(0x8040_2010_0804_0201) / 0x0100_0000_0000_0000) as u8
}

// Writes the bits of one byte at a place, which is counted: of a slice written through `chunks_exact_mut` a proof knows the length alone.
fn put(out: &mut [u8], at: usize, b: u8)
    requires { at + 8 ≤ length out.old }
    ensures { out.new ≡ take at out.old ++ (bits_of b ++ drop (at + 8) out.old) }
{
    out[at..at + 8].copy_from_slice(&bits_of(b));
}

// Refuses unless there are eight bits for each byte.
fn eight_each(bits: usize, bytes: usize) -> Result<(), Refusal>
    ensures { MatchResult result (λ _. bits ≡ 8 * bytes) (λ e. (bits ≢ 8 * bytes) × (e ≡ Refusal.WrongMemory)) }
{
    if bits % 8 != 0 || bits / 8 != bytes {
        return Err(Refusal::WrongMemory);
    }
    Ok(())
}

#[tactic(auto, using(crate::proofs::Loops::unpacked_none, crate::proofs::Loops::unpacked_more))]
fn put_all(bytes: &[u8], out: &mut [u8])
    requires { length out.old ≡ 8 * length bytes.now }
    ensures { out.new ≡ all_bits bytes.now }
{
    for (i, b) in bytes.iter().enumerate() {
        put(out, 8 * i, *b);
    }
}

// The bits of all bytes. The buffer must have eight times as many places as there are bytes; else it is refused, and stays as it was.
pub fn unpack(bytes: &[u8], out: &mut [u8]) -> Result<(), Refusal>
    ensures { Unpacked bytes.now out.old out.new result }
{
    eight_each(out.len(), bytes.len())?;
    put_all(bytes, out);
    Ok(())
}

#[tactic(auto, using(crate::proofs::Loops::eight_at, crate::proofs::Loops::packed_more, crate::proofs::Loops::packed_all))]
fn take_all(bits: &[u8], out: &mut [u8])
    requires { length bits.now ≡ 8 * length out.old }
    ensures { out.new ≡ all_bytes (length out.old) bits.now }
{
    let (eights, _) = bits.as_chunks::<8>();
    // by place: of a slice written through `zip` a proof knows the length alone
    for (i, x) in out.iter_mut().enumerate() {
        *x = byte_of(&eights[i]);
    }
}

// The bytes of all bits. There must be eight times as many bits as the buffer has places; else it is refused, and the buffer stays as it was.
pub fn pack(bits: &[u8], out: &mut [u8]) -> Result<(), Refusal>
    ensures { Packed bits.now out.old out.new result }
{
    eight_each(bits.len(), out.len())?;
    take_all(bits, out);
    Ok(())
}
