// Lines of the outer code: `encode MESSAGE WORD` and `repair WORD ANSWER REPAIRED`, where the answer is the number of bytes changed, or none.
use super::digits::bytes;
use reed_solomon::{Word, encode};

pub fn encodes(message: &str, word: &str) -> anyhow::Result<bool> {
    let message = bytes::<223>(message)?;
    let word = bytes::<255>(word)?;
    Ok(encode(&message).bytes == word)
}

fn count(answer: &str) -> anyhow::Result<Option<usize>> {
    Ok(match answer {
        "none" => None,
        number => Some(number.parse()?),
    })
}

pub fn repairs(word: &str, answer: &str, repaired: &str) -> anyhow::Result<bool> {
    let heard = bytes::<255>(word)?;
    let expected = count(answer)?;
    let repaired = bytes::<255>(repaired)?;
    let mut word = Word { bytes: heard };
    let changed = word.repair();
    Ok(changed == expected && word.bytes == repaired)
}
