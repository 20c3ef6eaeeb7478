// The real station: over lent memory of 215,000 bytes of any content, which it clears as it begins.
ghost use Rattle.std.specs.Prelude.{◌≡◌, ◌≤◌, true, ◌++◌, length, drop, is_some, is_ok, nat_lt, Err, IfSome, MatchResult, ◌≢◌};
ghost use Rattle.bits.specs.declared.Refusal.TheVariants.{WrongMemory};
ghost use Rattle.bits.specs.Refusals.{number as code};
ghost use Rattle.transfer_theory.specs.Receiver.{new_receiver, missing, complete, handed, answers};
ghost use Rattle.transfer.specs.Memory.{slots_of, filled};
ghost use Rattle.transfer.specs.Messages.{Short, Fits, saying};
ghost use Rattle.transfer.specs.Heeding.{takes_in};
ghost use Rattle.transfer.specs.Shapes.{Shaped};

pub use crate::memory::MEMORY;
use crate::memory::{Slots, clear};
use crate::message::{Message, PAYLOAD, parts_of, read};
use crate::ship::LONGEST;
use crate::sides::Station;
use bits::Refusal;
use std::marker::Model;

// length: of the file, once it was heard.
#[derive(Drop)]
pub struct Ground<'a> {
    file: u8,
    length: Option<u32>,
    slots: Slots<'a>,
}

// A clause sees the receiver that it is; a length that was heard is at most 214,000.
impl<'a> Model for Ground<'a> {
    ghost use Rattle.std.specs.Prelude.{◌≤◌};
    ghost use Rattle.transfer_theory.specs.Receiver.{Receiver, receiver_of};
    ghost use Rattle.transfer.specs.Stations.{size_of};

    ghost Value = { Receiver };

    ghost view = { λ g. receiver_of g.file g.slots (size_of g.length) };

    ghost invariant = { λ g. size_of g.length ≤ 214001 };
}

// Leave to hand over: it can be neither copied nor let go, only a complete station gives it, of the length that it heard, and writing the file spends it.
pub struct Leave {
    length: u32,
}

impl<'a> Ground<'a> {
    // A station of which nothing was heard; memory of another length is refused.
    pub fn open(number: u8, memory: &'a mut [u8]) -> Result<Ground<'a>, Refusal>
        ensures { MatchResult result (λ g. (length memory.old ≡ 215000) × (g ≡ new_receiver number)) (λ e. (code e ≡ 4) × (length memory.old ≢ 215000)) }
    {
        let memory = memory.as_mut_array::<MEMORY>().ok_or(Refusal::WrongMemory)?;
        Ok(Ground {
            file: number,
            length: None,
            slots: Slots::new(memory),
        })
    }

    // How many parts are there. The clause shape says what any station keeps.
    pub fn parts_there(&self) -> usize
        ensures value { result ≡ filled self.now.slots }
        ensures within { result ≤ 1000 }
        ensures shape { Shaped self.now }
    {
        self.slots.filled()
    }

    // Leave to hand over, if and only if the station is complete.
    pub fn leave(&self) -> Option<Leave>
        ensures { is_some result ≡ complete self.now }
    {
        let length = self.length?;
        match self.slots.gap(parts_of(length)) {
            Some(_) => None,
            None => Some(Leave { length }),
        }
    }

    // What it says: an ask for the first part that is missing, or that all is there; nothing before a length was heard.
    #[tactic(auto, unfolding(transfer_theory::specs::Receiver::answers))]
    fn reply(&self) -> Option<Message<'static>>
        ensures there { is_some result ≡ nat_lt 0 self.now.size }
        ensures said { IfSome result (λ m. saying m ≡ answers self.now) }
        ensures fits { IfSome result Fits }
    {
        let length = self.length?;
        let file = self.file;
        match self.slots.gap(parts_of(length)) {
            Some(number) => Some(Message::Ask { file, number }),
            None => Some(Message::Done { file }),
        }
    }

    // Takes in a part, or the file's length.
    fn heed(&mut self, message: Message<'_>)
        requires { Short message }
        ensures { self.new ≡ takes_in message.entry self.old }
    {
        match message {
            Message::Part { file, number, body } if file == self.file => {
                self.slots.keep(number, body);
            }
            Message::End { file, length } if file == self.file && length as usize <= LONGEST => {
                self.length = Some(length);
            }
            _ => {}
        }
    }

    // Spends the leave: writes the file by the station's present state and says how many bytes it has; what lies behind them stays.
    pub fn spend(&self, leave: Leave, out: &mut [u8; LONGEST]) -> usize
        ensures count { result ≡ length (handed self.now) }
        ensures within { result ≤ 214000 }
        ensures written { out.new ≡ handed self.now ++ drop result out.old }
    {
        let Leave { length: _ } = leave;
        let length = self.length.unwrap_or(0);
        self.slots
            .copy_to(parts_of(length), &mut out[..length as usize])
    }
}

impl<'a> Station for Ground<'a> {
    ghost receiver = { λ g. g };

    fn begin(&mut self, number: u8) {
        self.slots.clear();
        self.file = number;
        self.length = None;
    }

    #[tactic(auto, using(crate::proofs::Heeding::takes_heard, crate::proofs::Heeding::not_heard))]
    fn heard(&mut self, payload: &[u8; PAYLOAD]) {
        if let Some(message) = read(payload) {
            self.heed(message);
        }
    }

    fn answer(&self) -> Option<[u8; PAYLOAD]> {
        Some(self.reply()?.payload())
    }

    fn complete(&self) -> bool {
        matches!(self.length, Some(length) if self.slots.gap(parts_of(length)).is_none())
    }

    fn hand_over(&self, out: &mut [u8; LONGEST]) -> Option<usize> {
        let leave = self.leave()?;
        Some(self.spend(leave, out))
    }
}

// Opens a station for callers that keep none: no slot of the memory has a part, whatever it held. Memory of another length is refused and stays as it was
// (of `open`, whose result borrows the memory, a contract cannot say so).
pub fn station_opens(_number: u8, memory: &mut [u8]) -> Result<(), Refusal>
    ensures opened { length memory.old ≡ 215000 → (is_ok result ≡ true) × (slots_of memory.new ≡ missing 1000) }
    ensures refused { (length memory.old ≢ 215000) → (result ≡ Err WrongMemory) × (memory.new ≡ memory.old) }
{
    match memory.as_mut_array::<MEMORY>() {
        Some(all) => {
            clear(all);
            Ok(())
        }
        None => Err(Refusal::WrongMemory),
    }
}
