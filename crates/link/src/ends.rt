// The real ends under the names that programs use: the radio and the ship in one value.
ghost use Rattle.std.specs.Prelude.{◌≡◌, [], IfOk};
ghost use Rattle.transfer_theory.specs.Sender.{new_sender};
ghost use Rattle.transfer.specs.Shapes.{InRoom};

use bits::Refusal;
use frame::Radio;
use std::alloc::{AllocError, Global};
use std::marker::Model;
use transfer::ship::Vessel;
use transfer::sides::Ship;

// The radio needs no state; of the ship it is the whole, so that its calls are handed on.
#[derive(Drop)]
pub struct TheLink {
    pub vessel: Vessel,
}

// A clause sees the sender that it is.
impl Model for TheLink {
    ghost use Rattle.transfer_theory.specs.Sender.{Sender};

    ghost Value = { Sender };

    ghost view = { λ l. l.vessel };
}

impl TheLink {
    // A ship with an empty file of number 0; it fails only for want of memory.
    pub fn new(heap: Global) -> Result<TheLink, AllocError>
        ensures { IfOk result (λ l. l ≡ new_sender 0 []) }
    {
        Ok(TheLink {
            vessel: Vessel::new(heap)?,
        })
    }
}

impl Radio for TheLink {
    fn send(payload: &[u8; 221], out: &mut [u8; 4092]) {
        frame::send(payload, out);
    }

    fn hear(bits: &[u8]) -> Result<Option<[u8; 221]>, Refusal> {
        frame::hear(bits)
    }
}

impl Ship for TheLink {
    ghost sender = { λ s. s };

    fn begin(&mut self, number: u8, content: &[u8]) -> Result<(), Refusal> {
        self.vessel.begin(number, content)
    }

    fn next(&mut self, out: &mut [u8; 221]) {
        self.vessel.next(out);
    }

    fn heard(&mut self, payload: &[u8; 221]) {
        self.vessel.heard(payload);
    }

    // Whether it was told that all is there. The clause room says what any ship keeps.
    fn done(&self) -> bool
        ensures told { result ≡ self.now.done }
        ensures room { InRoom self.now }
    {
        self.vessel.done()
    }
}
