// The two sides and the line between them, as traits: each ghost member is the machine that a side is, or what a line may make of what was said.
ghost use Rattle.std.specs.Prelude.{◌≡◌, ◌≤◌, true, T, length, is_some, is_ok, IfSome, IfErr, OnOk, OnErr, nat_le, nat_lt};
ghost use Rattle.bits.specs.Heard.{Heard, Got, heard_of};
ghost use Rattle.bits.specs.Refusals.{number as code};
ghost use Rattle.transfer_theory.specs.Sender.{Sender, new_sender, says, after_saying, told};
ghost use Rattle.transfer_theory.specs.Receiver.{Receiver, new_receiver, hears, answers, complete, handed_count, handed_into};
ghost use Rattle.transfer.specs.Stations.{count_of};

use crate::message::PAYLOAD;
use crate::ship::LONGEST;
use bits::Refusal;

pub trait Ship {
    ghost sender: { Self → Sender };

    // From now on this file; one of more than 214,000 bytes is refused, and then nothing is changed.
    fn begin(&mut self, number: u8, content: &[u8]) -> Result<(), Refusal>
        ensures begun { OnOk result (sender self.new ≡ new_sender number content.now) }
        ensures kept { OnErr result (sender self.new ≡ sender self.old) }
        ensures fits { T (nat_le (length content.now) 214000) → is_ok result ≡ true }
        ensures refused { IfErr result (λ e. (code e ≡ 3) × (T (nat_le (length content.now) 214000) → ⊥)) };

    // What it says next, into lent memory, as the published calls have it.
    fn next(&mut self, out: &mut [u8; PAYLOAD])
        ensures said { out.new ≡ says (sender self.old) }
        ensures after { sender self.new ≡ after_saying (sender self.old) };

    // Takes in what was heard.
    fn heard(&mut self, payload: &[u8; PAYLOAD])
        ensures { sender self.new ≡ told (Got payload.now) (sender self.old) };

    // Whether it was told that all is there.
    fn done(&self) -> bool
        ensures { result ≡ (sender self.now).done };
}

pub trait Station {
    ghost receiver: { Self → Receiver };

    // From now on a file of this number, of which nothing was heard.
    fn begin(&mut self, number: u8)
        ensures { receiver self.new ≡ new_receiver number };

    // Takes in what was heard.
    fn heard(&mut self, payload: &[u8; PAYLOAD])
        ensures { receiver self.new ≡ hears (Got payload.now) (receiver self.old) };

    // Its answer, once a length was heard.
    fn answer(&self) -> Option<[u8; PAYLOAD]>
        ensures there { is_some result ≡ nat_lt 0 (receiver self.now).size }
        ensures answer { IfSome result (λ p. p ≡ answers (receiver self.now)) };

    // Whether it has a length and all parts.
    fn complete(&self) -> bool
        ensures { result ≡ complete (receiver self.now) };

    // Writes the file into lent memory, if and only if it is complete: the count of bytes written; what lies behind them stays.
    fn hand_over(&self, out: &mut [u8; LONGEST]) -> Option<usize>
        ensures there { is_some result ≡ complete (receiver self.now) }
        ensures within { IfSome result (λ n. n ≤ 214000) }
        ensures count { count_of result ≡ handed_count (receiver self.now) }
        ensures written { out.new ≡ handed_into (receiver self.now) out.old };
}

// What carries payloads both ways, its state related, call by call, to what was said and what is heard. Nothing said, and nothing heard, is none.
pub trait Line {
    // On the way forth: the line before, what was said, what is heard, the line after.
    ghost forth: { Self → Heard → Heard → Self → Type 0 };

    // On the way back.
    ghost back: { Self → Heard → Heard → Self → Type 0 };

    // The ship said a payload: what the station hears next.
    fn down(&mut self, said: &[u8; PAYLOAD]) -> Option<[u8; PAYLOAD]>
        ensures { forth self.old (Got said.now) (heard_of result) self.new };

    // The station said a payload or nothing: what the ship hears next.
    fn up(&mut self, said: &Option<[u8; PAYLOAD]>) -> Option<[u8; PAYLOAD]>
        ensures { back self.old (heard_of said.now) (heard_of result) self.new };
}
