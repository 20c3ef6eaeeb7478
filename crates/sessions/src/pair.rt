// A ship and a station with the line between them, by the calls that the programs make.
use super::table::Cell;
use bits::Refusal;
use ends::{hand_over, ship_first, ship_turn, station_answers, station_hears};
use link::{TheGround, TheLink};
use text::Line;
use transfer::ship::LONGEST;
use transfer::sides::{Ship, Station};

// What was handed over is not the file; in the table, a number that no file's length is.
#[derive(Clone, Copy)]
pub struct OtherBytes;

impl Cell for OtherBytes {
    fn number(self) -> u64 {
        999999
    }
}

// In which round of a session the ship was done, and in which a file was first handed over.
#[derive(Clone, Copy, Default)]
pub struct Played {
    pub done: Option<u64>,
    pub handed: Option<u64>,
}

// Both ends, and the line.
#[derive(Drop)]
pub struct Pair<'a> {
    pub link: TheLink,
    pub station: TheGround<'a>,
    // what the ship said last
    pub line: Line,
}

impl<'a> Pair<'a> {
    pub fn hears(&mut self, line: &Line) -> Result<(), Refusal> {
        station_hears(&mut self.station, line)
    }

    pub fn answers(&self, line: &mut Line) {
        station_answers(&self.station, line);
    }

    // The number of bytes handed over, if the station is complete.
    fn hands_over(&self, out: &mut [u8; LONGEST]) -> Option<usize> {
        let leave = self.station.leave()?;
        Some(hand_over(&self.station, leave, out))
    }

    // A new file of number 7 for both; the ship says its first frame.
    pub fn begin(&mut self, content: &[u8]) {
        let _ = self.link.begin(7, content);
        self.station.begin(7);
        ship_first(&mut self.link, &mut self.line);
    }

    // A file for the ship alone.
    pub fn load(&mut self, number: u8, content: &[u8]) -> Result<(), Refusal> {
        self.link.begin(number, content)
    }

    // The ship's turn on a line, with its next frame then in the line's place: whether it is done.
    pub fn turn(&mut self, line: &mut Line) -> Result<bool, Refusal> {
        ship_turn(&mut self.link, line)
    }

    // A round in which both lines come through: the ship's turn.
    pub fn round(&mut self) -> Result<bool, Refusal> {
        let mut line = self.line;
        let _ = self.hears(&line);
        self.answers(&mut line);
        let came = self.turn(&mut line);
        self.line = line;
        came
    }

    // Rounds until the ship is done, at most 99; a session that does not end counts 100.
    pub fn play(&mut self, out: &mut [u8; LONGEST]) -> Played {
        let mut played = Played::default();
        for n in 1..100u64 {
            let done = self.round();
            if played.handed.is_none() {
                played.handed = self.hands_over(out).map(|_| n);
            }
            if done == Ok(true) {
                played.done = Some(n);
                break;
            }
        }
        played.done = played.done.or(Some(100));
        played
    }

    // How many bytes are handed over, if any, and if they are these.
    pub fn handed(
        &self,
        content: &[u8],
        out: &mut [u8; LONGEST],
    ) -> Result<Option<usize>, OtherBytes> {
        out.fill(238);
        let handed = self.hands_over(out);
        match handed.and_then(|n| out.get(..n)) {
            Some(bytes) if bytes != content => Err(OtherBytes),
            _ => Ok(handed),
        }
    }
}
