// A line that plays tricks.
use transfer::sides::Line;

// What the line does with a payload that was said.
#[derive(Clone, Copy)]
pub enum Trick {
    Bring,
    Lose,
    Repeat,
    Foreign,
}

// The line: what it does next each way, what the ship said last, and a late payload of another file.
#[derive(Drop)]
pub struct Tricky {
    pub down: Trick,
    pub up: Trick,
    pub last: [u8; 221],
    pub foreign: [u8; 221],
}

impl Tricky {
    // What comes of a payload that was said.
    fn turned(&self, trick: Trick, said: &[u8; 221]) -> Option<[u8; 221]> {
        match trick {
            Trick::Bring => Some(*said),
            Trick::Lose => None,
            Trick::Repeat => Some(self.last),
            Trick::Foreign => Some(self.foreign),
        }
    }
}

impl Line for Tricky {
    ghost forth = { λ _ _ _ _. Unit {0} };

    ghost back = { λ _ _ _ _. Unit {0} };

    fn down(&mut self, said: &[u8; 221]) -> Option<[u8; 221]> {
        let comes = self.turned(self.down, said);
        self.last = *said;
        comes
    }

    fn up(&mut self, said: &Option<[u8; 221]>) -> Option<[u8; 221]> {
        self.turned(self.up, said.as_ref()?)
    }
}
