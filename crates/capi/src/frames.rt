// Frames: sent and heard.
ghost use Rattle.std.specs.Prelude.{◌≡◌};
ghost use Rattle.frame.specs.Hearing.{answer, left};
ghost use Rattle.capi.specs.Calls.{Sends, Hearing, outcome};

use bits::Refusal;

// The frame of a payload.
pub fn send(payload: &[u8], bits: &mut [u8]) -> Result<(), Refusal>
    ensures { Sends payload.now bits.old bits.new (outcome result) }
{
    let payload = payload.as_array::<221>().ok_or(Refusal::WrongMemory)?;
    let bits = bits.as_mut_array::<4092>().ok_or(Refusal::WrongMemory)?;
    frame::send(payload, bits);
    Ok(())
}

// What is heard in the bits: a payload, or zeros where there is none.
#[tactic(auto, using(crate::proofs::Told::heard, crate::proofs::Told::left_behind), unfolding(bits::specs::Lists::zeros))]
pub fn hear(bits: &[u8], payload: &mut [u8]) -> Result<Option<[u8; 221]>, Refusal>
    ensures left { payload.new ≡ left payload.old result }
    ensures heard { Hearing bits.now payload.old payload.new (answer result) }
{
    let payload = payload.as_mut_array::<221>().ok_or(Refusal::WrongMemory)?;
    let heard = frame::hear(bits)?;
    *payload = heard.unwrap_or([0; 221]);
    Ok(heard)
}
