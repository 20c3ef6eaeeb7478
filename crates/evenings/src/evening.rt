// Evenings, one behind the other: a ship, a station and a line that loses, keeps and repeats; after each event the library is held to the books.
use super::book::{Book, Payload};
use super::expected::{ask, end, part};
use super::random::Dice;
use super::tally::Tally;
use transfer::ship::{LONGEST, Vessel};
use transfer::sides::{Ship, Station};
use transfer::station::Ground;

// What lent memory holds before anything is written.
pub const UNTOUCHED: u8 = 238;

// What becomes of a payload: lost, delivered, kept for later, or both.
#[derive(Clone, Copy)]
struct Fate {
    delivered: bool,
    kept: bool,
}

impl Fate {
    fn by_chance(dice: &mut Dice) -> Fate {
        let n = dice.below(4);
        Fate {
            delivered: n % 2 == 1,
            kept: n >= 2,
        }
    }
}

// Payloads kept for later; at first such of kind 0, which say nothing.
#[derive(Clone, Copy)]
struct Shelf([Payload; 8]);

impl Shelf {
    fn new() -> Shelf {
        Shelf([Payload::saying_nothing([0; 221]); 8])
    }

    // By chance a payload on its way is kept: whether it is delivered.
    fn carry(&mut self, dice: &mut Dice, payload: Payload) -> bool {
        let Fate { delivered, kept } = Fate::by_chance(dice);
        if kept {
            self.0[dice.below(8)] = payload;
        }
        delivered
    }

    fn any(&self, dice: &mut Dice) -> Payload {
        self.0[dice.below(8)]
    }
}

// Both sides, the line with what it keeps each way, the file, memory for what is handed over, and the books.
#[derive(Drop)]
pub struct Evening<'a> {
    pub dice: Dice,
    pub tally: Tally,
    ship: Vessel,
    station: Ground<'a>,
    content: &'a [u8],
    out: &'a mut [u8; LONGEST],
    book: Book,
    down: Shelf,
    up: Shelf,
}

impl<'a> Evening<'a> {
    pub fn new(
        dice: Dice,
        ship: Vessel,
        station: Ground<'a>,
        out: &'a mut [u8; LONGEST],
    ) -> Evening<'a> {
        Evening {
            dice,
            tally: Tally::default(),
            ship,
            station,
            content: &[],
            out,
            book: Book::new(0, 0),
            down: Shelf::new(),
            up: Shelf::new(),
        }
    }

    // A whole evening: so many events by chance, then clean rounds, one more than the file has parts.
    pub fn play(&mut self, content: &'a [u8], events: usize) {
        self.begin(content);
        for _ in 0..events {
            self.event();
        }
        for _ in 0..self.book.parts.saturating_add(1) {
            self.round();
        }
        self.over();
    }

    // A new file for both sides, of a number by chance.
    fn begin(&mut self, content: &'a [u8]) {
        let out = &mut *self.out;
        out[0..3000].fill(UNTOUCHED);
        let number = self.dice.byte();
        let begun = self.ship.begin(number, content);
        self.tally.not_over.add_if(begun.is_err());
        self.station.begin(number);
        self.content = content;
        self.book = Book::new(number, content.len());
        self.down = Shelf::new();
        self.up = Shelf::new();
        self.tally.evenings.add();
    }

    // Two functions, since the ship and the station hear by two traits, and keep different books.
    fn tell_station(&mut self, payload: &Payload) {
        self.station.heard(&payload.bytes);
        self.book.told_station(payload.sense);
        self.tally.heard.add();
    }

    fn tell_ship(&mut self, payload: &Payload) {
        self.ship.heard(&payload.bytes);
        self.book.told_ship(payload.sense);
        self.tally.heard.add();
    }

    // What the ship says, held to what it must say.
    fn said(&mut self) -> Payload {
        let mut bytes = [0u8; 221];
        self.ship.next(&mut bytes);
        let expected = self.book.next(self.content);
        self.tally.wrong_said.add_if(bytes != expected.bytes);
        self.tally.said.add();
        Payload { bytes, ..expected }
    }

    // What the station answers, held to what it must answer: nothing before an end was delivered.
    fn answered(&mut self) -> Option<Payload> {
        let answer = self.station.answer();
        let expected = self.book.answer();
        self.tally
            .wrong_answers
            .add_if(answer != expected.map(|payload| payload.bytes));
        let bytes = answer?;
        Some(Payload { bytes, ..expected? })
    }

    // The ship says: lost, delivered, kept, or both.
    fn speak(&mut self) {
        let payload = self.said();
        if self.down.carry(&mut self.dice, payload) {
            self.tell_station(&payload);
        }
    }

    // The station answers: lost, delivered, kept, or both.
    fn reply(&mut self) {
        if let Some(payload) = self.answered() {
            self.tally.answered.add();
            if self.up.carry(&mut self.dice, payload) {
                self.tell_ship(&payload);
            }
        }
    }

    // A payload of any kind, of another file's number, for both sides.
    fn foreign(&mut self) {
        let Payload { mut bytes, .. } = self.down.any(&mut self.dice);
        bytes[0] = self.dice.below(5) as u8;
        bytes[1] = self.book.number ^ (1 + self.dice.below(255) as u8);
        bytes[3] = self.dice.below(4) as u8;
        let payload = Payload::saying_nothing(bytes);
        self.tell_station(&payload);
        self.tell_ship(&payload);
    }

    // Numbers that the rules leave out: an ask for a part that the file has not, an end past the greatest length, a part past the last slot.
    fn beyond(&mut self) {
        let file = self.book.number;
        let number = self.book.parts.saturating_add(self.dice.below(3));
        self.tell_ship(&Payload::saying_nothing(ask(file, number)));
        self.tell_station(&Payload::saying_nothing(end(file, number, 214001)));
        self.tell_station(&Payload::saying_nothing(part(file, 1000, &[])));
    }

    // What was kept goes to the right side, or to the wrong one.
    fn late(&mut self) {
        let down = self.down.any(&mut self.dice);
        let up = self.up.any(&mut self.dice);
        match self.dice.below(4) {
            0 => self.tell_ship(&down),
            1 => self.tell_station(&up),
            2 => self.tell_ship(&up),
            _ => self.tell_station(&down),
        }
    }

    // One event by chance, and then the checks. The width of each range is the event's weight.
    fn event(&mut self) {
        match self.dice.below(13) {
            0..=4 => self.speak(),
            5..=7 => self.reply(),
            8 => self.foreign(),
            9 | 10 => self.late(),
            11 => self.beyond(),
            _ => {}
        }
        self.check();
    }

    // A round in which both frames arrive, and then the checks.
    fn round(&mut self) {
        let payload = self.said();
        self.tell_station(&payload);
        if let Some(back) = self.answered() {
            self.tally.answered.add();
            self.tell_ship(&back);
        }
        self.check();
    }

    // After each event: the answer, whether the ship is done, what is handed over.
    fn check(&mut self) {
        let _ = self.answered();
        let done = self.ship.done();
        self.tally.wrong_done.add_if(done != self.book.done);
        let right = self.handed_right();
        self.tally.wrong_handed.add_if(!right);
        self.tally.events.add();
    }

    // Nothing is written while a part or the end is missing; then the file's bytes, and none behind them.
    fn handed_right(&mut self) -> bool {
        let content = self.content;
        let out = &mut *self.out;
        let handed = self.station.hand_over(out);
        let behind = out.get(content.len()).is_none_or(|b| *b == UNTOUCHED);
        if self.book.complete() {
            behind && handed == Some(content.len()) && out.starts_with(content)
        } else {
            behind && handed.is_none() && out[0] == UNTOUCHED
        }
    }

    // After parts + 1 rounds in a row: the file is handed over and the ship is done.
    fn over(&mut self) {
        let over = self.book.complete() && self.ship.done();
        self.tally.not_over.add_if(!over);
    }
}
