// The books of one evening: what each side was told, and so what it must say and show.
use super::expected::{all_there, ask, end, part};

// What a payload says, as known from when it was said: of the ship a part or the end, of the station an ask or all-there.
#[derive(Clone, Copy)]
pub enum Sense {
    Part(usize),
    End,
    Ask(usize),
    AllThere,
}

// A payload, and what it says, if it says anything.
#[derive(Clone, Copy)]
pub struct Payload {
    pub sense: Option<Sense>,
    pub bytes: [u8; 221],
}

impl Payload {
    pub fn saying(sense: Sense, bytes: [u8; 221]) -> Payload {
        Payload {
            sense: Some(sense),
            bytes,
        }
    }

    pub fn saying_nothing(bytes: [u8; 221]) -> Payload {
        Payload { sense: None, bytes }
    }
}

#[derive(Drop)]
pub struct Book {
    pub number: u8,
    length: usize,
    pub parts: usize,
    place: usize,
    pub done: bool,
    ended: bool,
    got: [bool; 1000],
}

impl Book {
    pub fn new(number: u8, length: usize) -> Book {
        Book {
            number,
            length,
            parts: length.div_ceil(214),
            place: 0,
            done: false,
            ended: false,
            got: [false; 1000],
        }
    }

    // The first part that was not delivered.
    fn gap(&self) -> Option<usize> {
        self.got.iter().take(self.parts).position(|got| !*got)
    }

    // Whether the end and all parts were delivered.
    pub fn complete(&self) -> bool {
        self.ended && self.gap().is_none()
    }

    // The station is told.
    pub fn told_station(&mut self, sense: Option<Sense>) {
        match sense {
            Some(Sense::Part(i)) => {
                if let Some(got) = self.got.get_mut(i) {
                    *got = true;
                }
            }
            Some(Sense::End) => self.ended = true,
            _ => {}
        }
    }

    // The ship is told.
    pub fn told_ship(&mut self, sense: Option<Sense>) {
        match sense {
            Some(Sense::Ask(i)) if i < self.parts => self.place = i,
            Some(Sense::AllThere) => self.done = true,
            _ => {}
        }
    }

    // What the ship must say next, and the place goes on.
    pub fn next(&mut self, content: &[u8]) -> Payload {
        let place = self.place;
        if place < self.parts {
            self.place = place + 1;
            Payload::saying(Sense::Part(place), part(self.number, place, content))
        } else {
            Payload::saying(Sense::End, end(self.number, self.parts, self.length))
        }
    }

    // What the station must answer: nothing before an end was delivered.
    pub fn answer(&self) -> Option<Payload> {
        self.ended.then(|| match self.gap() {
            Some(gap) => Payload::saying(Sense::Ask(gap), ask(self.number, gap)),
            None => Payload::saying(Sense::AllThere, all_there(self.number)),
        })
    }
}
