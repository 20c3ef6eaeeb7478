// The real ship: it owns room for the longest file from its making, so that a file is begun without asking for memory.
ghost use Rattle.std.specs.Prelude.{◌≡◌, ◌<◌, ◌≤◌, [], length, IfOk, IfSome, MatchResult, MatchOption};
ghost use Rattle.bits.specs.Refusals.{number as code};
ghost use Rattle.transfer_theory.specs.Parts.{parts, part};
ghost use Rattle.transfer_theory.specs.Sender.{new_sender, says};
ghost use Rattle.transfer.specs.Messages.{Fits, saying};
ghost use Rattle.transfer.specs.Heeding.{heeds};
ghost use Rattle.transfer.specs.Shapes.{InRoom};

use crate::message::{Message, PART, PAYLOAD, parts_of, read};
use crate::sides::Ship;
use bits::Refusal;
use std::alloc::{AllocError, Global};
use std::marker::Model;

// The most bytes that a file has.
pub const LONGEST: usize = 214000;

// The file's bytes stand in `content`, which never grows.
#[derive(Drop)]
pub struct Vessel {
    file: u8,
    content: Vec<u8>,
    place: u16,
    done: bool,
}

// A clause sees the sender that it is.
impl Model for Vessel {
    ghost use Rattle.std.specs.Prelude.{◌+◌, ◌/◌, ◌≤◌, vec_len, vec_capacity};
    ghost use Rattle.transfer_theory.specs.Sender.{Sender, sender_at};

    ghost Value = { Sender };

    ghost view = { λ v. sender_at v.file v.content.items v.place v.done };

    ghost invariant = { λ v. (214000 ≤ vec_capacity v.content) × (vec_len v.content ≤ 214000) × (v.place ≤ (vec_len v.content + 213) / 214) };
}

impl Vessel {
    // A ship with an empty file of number 0; it fails only for want of memory.
    pub fn new(heap: Global) -> Result<Vessel, AllocError>
        ensures { IfOk result (λ s. s ≡ new_sender 0 []) }
    {
        let content = Vec::with_capacity(heap, LONGEST)?;
        Ok(Vessel {
            file: 0,
            content,
            place: 0,
            done: false,
        })
    }

    // Copies the file; one of more than 214,000 bytes is refused, and nothing is changed.
    pub fn load(&mut self, number: u8, content: &[u8]) -> Result<(), Refusal>
        ensures { MatchResult result (λ _. (length content.now ≤ 214000) × (self.new ≡ new_sender number content.now)) (λ e. (code e ≡ 3) × (214000 < length content.now) × (self.new ≡ self.old)) }
    {
        if content.len() > LONGEST {
            return Err(Refusal::TooLong);
        }
        self.content.clear();
        let _ = self.content.extend_from_slice(content);
        self.file = number;
        self.place = 0;
        self.done = false;
        Ok(())
    }

    // How many parts the file has.
    fn parts(&self) -> u16
        ensures { result ≡ parts self.now.bytes }
    {
        parts_of(self.content.len() as u32)
    }

    // The part at its place, if that is not past the last.
    #[tactic(auto, using(crate::proofs::Bytes::part_range))]
    fn part(&self) -> Option<&[u8]>
        ensures short { IfSome result (λ b. length b.now ≤ 214) }
        ensures value { MatchOption result (parts self.now.bytes ≤ self.now.place) (λ b. (self.now.place < parts self.now.bytes) × (b.now ≡ part self.now.bytes self.now.place)) }
    {
        if self.place >= self.parts() {
            return None;
        }
        let from = PART * usize::from(self.place);
        let to = (from + PART).min(self.content.len());
        Some(&self.content[from..to])
    }

    // What it says next: the part at its place, or the end.
    #[tactic(auto, unfolding(transfer_theory::specs::Sender::says))]
    fn message(&self) -> Message<'_>
        ensures said { saying result ≡ says self.now }
        ensures fits { Fits result }
    {
        let file = self.file;
        match self.part() {
            Some(body) => Message::Part {
                file,
                number: self.place,
                body,
            },
            None => Message::End {
                file,
                length: self.content.len() as u32,
            },
        }
    }

    // Goes to the part that it is asked for, or is done.
    fn heed(&mut self, message: Message<'_>)
        ensures { self.new ≡ heeds message.entry self.old }
    {
        match message {
            Message::Ask { file, number } if file == self.file && number < self.parts() => {
                self.place = number;
            }
            Message::Done { file } if file == self.file => self.done = true,
            _ => {}
        }
    }
}

impl Ship for Vessel {
    ghost sender = { λ s. s };

    fn begin(&mut self, number: u8, content: &[u8]) -> Result<(), Refusal> {
        self.load(number, content)
    }

    #[tactic(auto, unfolding(transfer_theory::specs::Sender::after_saying))]
    fn next(&mut self, out: &mut [u8; PAYLOAD]) {
        *out = self.message().payload();
        if self.place < self.parts() {
            self.place += 1;
        }
    }

    #[tactic(auto, using(crate::proofs::Heeding::heeds_told, crate::proofs::Heeding::not_told))]
    fn heard(&mut self, payload: &[u8; PAYLOAD]) {
        if let Some(message) = read(payload) {
            self.heed(message);
        }
    }

    // Whether it was told that all is there. The clause room says what any ship keeps.
    fn done(&self) -> bool
        ensures told { result ≡ self.now.done }
        ensures room { InRoom self.now }
    {
        self.done
    }
}
