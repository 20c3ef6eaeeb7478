// The check of 16 bits (CRC-16) over any bytes.
ghost use Rattle.std.specs.Prelude.{◌≡◌, fold};
ghost use Rattle.bits.specs.Crc.{shifted, stirred, stirred_two, crc};

// One bit further.
fn shift(c: u16) -> u16
    ensures { result ≡ shifted c }
{
    if c < 32768 {
        2 * c
    } else {
        (2 * (c - 32768)) ^ 4129
    }
}

// One byte further.
#[tactic(auto, using(crate::proofs::Steps::shifted_by_more, crate::proofs::Steps::shifted_by_none))]
fn stir(c: u16, b: u8) -> u16
    ensures { result ≡ stirred c b }
{
    let mut x = c ^ (256 * u16::from(b));
    for _ in 0..8usize {
        x = shift(x);
    }
    x
}

// Two bytes further: all sixteen bits at once. The quotient by the polynomial is a sum of shifts, and so is its product with it.
#[tactic(auto, using(crate::proofs::Checks::stirred_pair))]
fn stir_two(c: u16, pair: &[u8; 2]) -> u16
    ensures { result ≡ stirred_two c pair.now }
{
    let x = c ^ u16::from_be_bytes(*pair);
    let y = x ^ (x / 16);
    let q = y ^ (y / 256) ^ (x / 2048);
    q ^ (q % 2048 * 32) ^ (q % 16 * 4096)
}

fn stir_pairs(start: u16, pairs: &[[u8; 2]]) -> u16
    ensures { result ≡ fold stirred_two start pairs.now }
{
    pairs.iter().fold(start, |c, pair| stir_two(c, pair))
}

fn stir_bytes(start: u16, bytes: &[u8]) -> u16
    ensures { result ≡ fold stirred start bytes.now }
{
    bytes.iter().fold(start, |c, b| stir(c, *b))
}

// Two bytes at a time, and then the one that may be left.
#[tactic(auto, using(crate::proofs::Steps::crc_from_pairs))]
pub fn crc16(bytes: &[u8]) -> u16
    ensures { result ≡ crc bytes.now }
{
    let (pairs, rest) = bytes.as_chunks::<2>();
    stir_bytes(stir_pairs(65535, pairs), rest)
}
