// A station's memory: 1,000 slots of 215 bytes. A slot is a count byte (0: empty, else 1 + the count) and room for a part.
ghost use Rattle.std.specs.Prelude.{◌≡◌, ◌+◌, ◌-◌, ◌*◌, ◌<◌, ◌≤◌, ◌++◌, length, map, take, drop, slice_set, position, MatchOption};
ghost use Rattle.transfer_theory.specs.Receiver.{Missing, Have, missing, joined};
ghost use Rattle.transfer.specs.Memory.{slots_of, slot_read, free, filled, IsGap, with_part, overwritten};
ghost use Rattle.transfer.specs.Shapes.{Slotted};

use crate::message::PART;
use std::marker::Model;

const SLOTS: usize = 1000;

const SLOT: usize = 1 + PART;

// The bytes of a station's memory.
pub const MEMORY: usize = SLOTS * SLOT;

// Writes a slot's count byte.
fn write_count(memory: &mut [u8; MEMORY], slot: usize, count: u8)
    requires { slot < 1000 }
    ensures { memory.new ≡ slice_set memory.old (215 * slot) count }
{
    memory[SLOT * slot] = count;
}

// Empties all slots, whatever the memory held: the count bytes alone are written. By index, since no loan of slots says what the memory ends as.
pub(crate) fn clear(memory: &mut [u8; MEMORY])
    ensures { slots_of memory.new ≡ missing 1000 }
{
    for slot in 0..SLOTS {
        write_count(memory, slot, 0);
    }
}

// What a slot has of its part, if it is not empty.
fn part(slot: &[u8; SLOT]) -> Option<&[u8]>
    ensures { MatchOption result (slot_read slot.now ≡ Missing) (λ b. slot_read slot.now ≡ Have b.now) }
{
    let count = usize::from(slot[0].checked_sub(1)?).min(PART);
    Some(&slot[1..1 + count])
}

// The place of the first empty one of some slots.
fn first_empty(slots: &[[u8; SLOT]]) -> Option<usize>
    ensures { result ≡ position free slots.now }
{
    slots.iter().position(|slot| part(slot).is_none())
}

// Writes bytes from a place on, none past the end, and says where the next go.
fn write(out: &mut [u8], at: usize, bytes: &[u8]) -> usize
    requires { at ≤ length out.old }
    ensures next { result ≡ at + length (take (length out.old - at) bytes.now) }
    ensures written { out.new ≡ overwritten at (take (length out.old - at) bytes.now) out.old }
{
    let count = bytes.len().min(out.len() - at);
    out[at..at + count].copy_from_slice(&bytes[..count]);
    at + count
}

// Fills a slot: the body first, the count byte last. By index, since no loan of slots says what the memory ends as.
#[tactic(auto, using(crate::proofs::Places::put_over, crate::proofs::Slotted::kept))]
fn fill(memory: &mut [u8; MEMORY], slot: usize, body: &[u8])
    requires there { slot < 1000 }
    requires room { length body.now ≤ 214 }
    ensures { slots_of memory.new ≡ slice_set (slots_of memory.old) slot (Have body.now) }
{
    let first = SLOT * slot;
    memory[first + 1..first + 1 + body.len()].copy_from_slice(body);
    memory[first] = body.len() as u8 + 1;
}

#[derive(Drop)]
pub(crate) struct Slots<'a> {
    memory: &'a mut [u8; MEMORY],
}

// A clause sees what each slot has.
impl<'a> Model for Slots<'a> {
    ghost use Rattle.std.specs.Prelude.{List};
    ghost use Rattle.transfer_theory.specs.Receiver.{Slot};
    ghost use Rattle.transfer.specs.Memory.{slots_of};

    ghost Value = { List Slot };

    ghost view = { λ s. slots_of s.memory.now };
}

impl<'a> Slots<'a> {
    // Empty slots, whatever the memory held.
    pub(crate) fn new(memory: &'a mut [u8; MEMORY]) -> Slots<'a>
        ensures { result ≡ missing 1000 }
    {
        clear(memory);
        Slots { memory }
    }

    pub(crate) fn clear(&mut self)
        ensures { self.new ≡ missing 1000 }
    {
        clear(self.memory);
    }

    // The slots, one after the other.
    fn all(&self) -> &[[u8; SLOT]]
        ensures slots { map slot_read result.now ≡ self.now }
        ensures count { length result.now ≡ 1000 }
        ensures shape { Slotted self.now }
    {
        self.memory.as_chunks::<SLOT>().0
    }

    // How many are filled.
    #[tactic(auto, using(crate::proofs::Slotted::filled_is, crate::proofs::Slotted::filled_within))]
    pub(crate) fn filled(&self) -> usize
        ensures value { result ≡ filled self.now }
        ensures within { result ≤ 1000 }
        ensures shape { Slotted self.now }
    {
        self.all()
            .iter()
            .filter(|slot| part(slot).is_some())
            .count()
    }

    // The first empty one of the first slots.
    #[tactic(auto, using(crate::proofs::Slotted::gap_is))]
    pub(crate) fn gap(&self, wanted: u16) -> Option<u16>
        requires { wanted ≤ 1000 }
        ensures { IsGap result wanted self.now }
    {
        let gap = first_empty(&self.all()[..usize::from(wanted)])?;
        Some(gap as u16)
    }

    // Keeps a part, if its number has a slot and that is empty.
    #[tactic(auto, using(crate::proofs::Slotted::part_new, crate::proofs::Slotted::part_known, crate::proofs::Slotted::part_past))]
    pub(crate) fn keep(&mut self, number: u16, body: &[u8])
        requires { length body.now ≤ 214 }
        ensures { self.new ≡ with_part number body.now self.old }
    {
        let slot = usize::from(number);
        if slot < SLOTS && self.memory[SLOT * slot] == 0 {
            fill(self.memory, slot, body);
        }
    }

    // Copies the bytes of the first slots, one after the other, none past the end, and says how many they are; what lies behind them stays.
    pub(crate) fn copy_to(&self, wanted: u16, out: &mut [u8]) -> usize
        requires { wanted ≤ 1000 }
        ensures within { result ≤ length out.old }
        ensures count { result ≡ length (take (length out.old) (joined wanted self.now)) }
        ensures copied { out.new ≡ take (length out.old) (joined wanted self.now) ++ drop result out.old }
    {
        let mut at = 0;
        for slot in &self.all()[..usize::from(wanted)] {
            at = write(out, at, part(slot).unwrap_or(&[]));
        }
        at
    }
}
