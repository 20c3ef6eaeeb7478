// One line of text, without its newline, as it comes in chunk by chunk. At most 4,093 bytes are kept, one more than a frame has
// digits, so that a longer line is never taken for a frame.
ghost use Rattle.std.specs.Prelude.{◌≡◌, ◌≤◌, length, [], ◌++◌, ◌==◌, Some, None, if◌then◌else◌, position};
ghost use Rattle.bits.specs.Lists.{zeros};
ghost use Rattle.text.specs.Input.{ends, used, kept, grown};
ghost use Rattle.text.specs.Lines.{digits};

use super::lines::put_digits;
use std::marker::Model;

// How many digits a frame has.
pub const FRAME: usize = 4092;

pub const LONGEST: usize = FRAME + 1;

// The text stands in front, and zeros behind it: an array, since a line is copied and takes no memory. In a contract a line is its text, a list of bytes.
#[derive(Clone, Copy, PartialEq, Eq, Debug)]
pub struct Line {
    bytes: [u8; LONGEST],
    count: usize,
}

impl Model for Line {
    ghost use Rattle.std.specs.Prelude.{List, ℕ};

    ghost Value = { List ℕ };

    ghost use Rattle.text.specs.Held.{text_of, line_of, Filled, line_of-text_of};

    ghost view = { text_of };

    ghost invariant = { Filled };

    ghost inverse = { line_of };

    ghost inverse_ok = { line_of-text_of };
}

impl Line {
    // A line with nothing in it.
    #[tactic(auto, unfolding(bits::specs::Lists::zeros))]
    pub fn new() -> Line
        ensures { result ≡ [] }
    {
        Line {
            bytes: [0; LONGEST],
            count: 0,
        }
    }

    pub fn text(&self) -> &[u8]
        ensures text { result.now ≡ self.now }
        ensures within { length result.now ≤ 4093 }
    {
        &self.bytes[..self.count]
    }

    pub fn clear(&mut self)
        ensures { self.new ≡ [] }
    {
        self.bytes[..self.count].fill(0);
        self.count = 0;
    }

    // Puts bytes behind those that are there, as far as there is room.
    fn keep(&mut self, more: &[u8])
        ensures { self.new ≡ kept (self.old ++ more.now) }
    {
        let from = self.count;
        let n = more.len().min(LONGEST - from);
        self.bytes[from..from + n].copy_from_slice(&more[..n]);
        self.count += n;
    }

    // Takes in a chunk of input up to its first newline. Where the line ends in it, the answer is how many bytes of the chunk
    // belong to the line, the newline among them; else all of it does.
    #[tactic(auto, using(crate::proofs::Chunks::newline_found, crate::proofs::Chunks::newline_unfound))]
    pub fn take_in(&mut self, chunk: &[u8]) -> Option<usize>
        ensures text { self.new ≡ grown self.old chunk.now }
        ensures end { result ≡ (if ends chunk.now then Some (used chunk.now) else None) }
    {
        match newline_in(chunk) {
            Some(end) => {
                self.keep(&chunk[..end]);
                Some(end + 1)
            }
            None => {
                self.keep(chunk);
                None
            }
        }
    }

    // The digits of a frame's bits, in the place of what was there.
    #[tactic(auto, using(crate::proofs::Held::filled_frame, crate::proofs::Held::frame_taken))]
    pub fn write(&mut self, bits: &[u8; FRAME])
        ensures { self.new ≡ digits bits.now }
    {
        put_frame(bits, &mut self.bytes);
        self.count = FRAME;
    }
}

// The digits of a frame's bits, and a zero in the place behind them.
#[tactic(auto, using(crate::proofs::Held::frame_put), unfolding(bits::specs::Lists::zeros))]
fn put_frame(bits: &[u8; FRAME], bytes: &mut [u8; LONGEST])
    ensures { bytes.new ≡ digits bits.now ++ zeros 1 }
{
    put_digits(bits, &mut bytes[..FRAME]);
    bytes[FRAME] = 0;
}

// The place of the first newline.
fn newline_in(chunk: &[u8]) -> Option<usize>
    ensures { result ≡ position (λ x. x == 10) chunk.now }
{
    chunk.iter().position(|x| *x == b'\n')
}
