// The two codes by themselves.
ghost use Rattle.frame.specs.Hearing.{answer};
ghost use Rattle.capi.specs.Calls.{Encodes, Repairs, Decodes, outcome};

use bits::Refusal;
use reed_solomon::Word;

// The code word of a message.
pub fn encode(message: &[u8], word: &mut [u8]) -> Result<(), Refusal>
    ensures { Encodes message.now word.old word.new (outcome result) }
{
    let message = message.as_array::<223>().ok_or(Refusal::WrongMemory)?;
    let word = word.as_mut_array::<255>().ok_or(Refusal::WrongMemory)?;
    word.copy_from_slice(&reed_solomon::encode(message).bytes);
    Ok(())
}

// The code word within 16 places, and how many bytes were changed, if there is one.
pub fn repair(word: &mut [u8], changed: &mut u32) -> Result<Option<usize>, Refusal>
    ensures { Repairs word.old word.new changed.old changed.new (answer result) }
{
    let bytes = word.as_mut_array::<255>().ok_or(Refusal::WrongMemory)?;
    let mut copy = Word { bytes: *bytes };
    let found = copy.repair();
    if let Some(count) = found {
        *bytes = copy.bytes;
        *changed = count as u32;
    }
    Ok(found)
}

// The same of buffers that have their lengths. Apart, so that the memory for decisions is cleared behind the tests alone.
fn search(heard: &[u8; 4092], out: &mut [u8; 2040], cost: &mut u32) -> Result<(), Refusal>
    ensures { Decodes heard.now out.old out.new cost.old cost.new (outcome result) }
{
    let mut decisions = [[0u8; 64]; 2046];
    *cost = convolutional::decode_hard(heard, &mut decisions, out)?;
    Ok(())
}

// The bits whose coded bits are nearest to those heard, and at how many places they differ.
pub fn decode(heard: &[u8], out: &mut [u8], cost: &mut u32) -> Result<(), Refusal>
    ensures { Decodes heard.now out.old out.new cost.old cost.new (outcome result) }
{
    let heard = heard.as_array::<4092>().ok_or(Refusal::WrongMemory)?;
    let out = out.as_mut_array::<2040>().ok_or(Refusal::WrongMemory)?;
    search(heard, out, cost)
}
