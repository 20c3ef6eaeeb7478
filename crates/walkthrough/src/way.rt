// A file's way: ship and station over a line that loses, repeats and mixes up.
use super::evening::{Trick, Tricky};
use std::{array, fmt};
use transfer::message::{Message, read};
use transfer::ship::{LONGEST, Vessel};
use transfer::sides::{Line, Ship, Station};
use transfer::station::{Ground, MEMORY};

// A payload in words.
#[derive(Clone, Copy)]
struct Words<'a>(&'a [u8; 221]);

impl fmt::Display for Words<'_> {
    fn fmt<W: fmt::Write>(&self, f: &mut fmt::Formatter<W>) -> fmt::Result {
        let Some(message) = read(self.0) else {
            return f.write_str("nothing known");
        };
        match message {
            Message::Part { file, number, body } => {
                let count = body.len();
                write!(f, "part {number} of file {file}, {count} bytes")
            }
            Message::End { file, length } => write!(f, "the end of file {file}, {length} bytes"),
            Message::Ask { file, number } => write!(f, "an ask for part {number} of file {file}"),
            Message::Done { file } => write!(f, "all-there for file {file}"),
        }
    }
}

fn show_heard(rt: &HostRuntime, who: &str, heard: &Option<[u8; 221]>) -> anyhow::Result<()> {
    match heard {
        Some(payload) => println!(rt; "        the {who} hears {}", Words(payload))?,
        None => println!(rt; "        the {who} hears nothing")?,
    }
    Ok(())
}

// What the line does with the frame down and with the one up, and a word on it.
type Round = (Trick, Trick, &'static str);

// A part is lost, another comes twice.
const OPENING: [Round; 4] = [
    (Trick::Bring, Trick::Bring, "1. The line is clean."),
    (Trick::Lose, Trick::Bring, "2. The line loses a part."),
    (Trick::Bring, Trick::Bring, "3. The line is clean."),
    (
        Trick::Repeat,
        Trick::Bring,
        "4. The line repeats the frame before in place of this one: the station has that part already.",
    ),
];

// An answer is lost, a late frame of another file comes, the missing part is filled in.
const CLOSING: [Round; 3] = [
    (
        Trick::Bring,
        Trick::Lose,
        "5. The end arrives, so the station knows the length and asks for what is missing. The line loses its answer.",
    ),
    (
        Trick::Foreign,
        Trick::Bring,
        "6. A late frame of another file comes in place of this one: it changes nothing. The ask arrives this time.",
    ),
    (Trick::Bring, Trick::Bring, "7. The line is clean."),
];

// Both sides, and the line between them.
#[derive(Drop)]
struct Way<'a> {
    ship: Vessel,
    line: Tricky,
    station: Ground<'a>,
}

impl<'a> Way<'a> {
    // The way down: the ship says, the station hears what comes of it.
    fn down(&mut self, rt: &HostRuntime) -> anyhow::Result<()> {
        let mut said = [0u8; 221];
        self.ship.next(&mut said);
        println!(rt; "        the ship says {}", Words(&said))?;
        let heard = self.line.down(&said);
        show_heard(rt, "station", &heard)?;
        if let Some(payload) = heard {
            self.station.heard(&payload);
        }
        Ok(())
    }

    // The way up: the station answers, the ship hears what comes of it.
    fn up(&mut self, rt: &HostRuntime) -> anyhow::Result<()> {
        let answer = self.station.answer();
        let heard = self.line.up(&answer);
        match &answer {
            Some(payload) => {
                println!(rt; "        the station answers {}", Words(payload))?;
                show_heard(rt, "ship", &heard)?;
            }
            None => rt.println("        the station has no answer: it knows no length yet")?,
        }
        if let Some(payload) = heard {
            self.ship.heard(&payload);
            self.show_ship(rt)?;
        }
        Ok(())
    }

    // What the ship does with an answer of its file.
    fn show_ship(&self, rt: &HostRuntime) -> anyhow::Result<()> {
        rt.println(if self.ship.done() {
            "        the ship is done"
        } else {
            "        the ship goes on with the part that is asked for"
        })?;
        Ok(())
    }

    // One round each way, under a word on what the line does.
    fn round(&mut self, rt: &HostRuntime, (down, up, what): Round) -> anyhow::Result<()> {
        println!(rt; "     {what}")?;
        self.line.down = down;
        self.line.up = up;
        self.down(rt)?;
        self.up(rt)
    }

    fn show_handed(&self, rt: &HostRuntime, file: &[u8; 500]) -> anyhow::Result<()> {
        let mut out = [0u8; LONGEST];
        match self.station.hand_over(&mut out) {
            None => rt.println("     The station hands over nothing: it is not complete.")?,
            Some(count) if out[..count] == file[..] => {
                println!(rt; "     The station hands over {count} bytes, those of the file.")?;
            }
            Some(count) => {
                println!(rt; "     The station hands over {count} bytes, not those of the file.")?;
            }
        }
        Ok(())
    }
}

// A line that has a part of file 6, said long ago.
fn line() -> Tricky {
    let mut foreign = [0u8; 221];
    foreign[0..5].copy_from_slice(&[1, 6, 0, 1, 214]);
    Tricky {
        down: Trick::Bring,
        up: Trick::Bring,
        last: [0; 221],
        foreign,
    }
}

pub fn section(rt: &HostRuntime) -> anyhow::Result<()> {
    rt.println("\n7. A file")?;
    rt.println("   A file of 500 bytes, number 7, goes from a ship to a station in three parts.")?;
    rt.println(
        "   The ship says part after part, then the end again and again. Once the station has heard the end,",
    )?;
    rt.println(
        "   it answers with the first part that is missing, or with all-there. (Each payload goes as a frame; here the line takes payloads.)",
    )?;
    let file: [u8; 500] = array::from_fn(|i| (i % 251) as u8);
    let mut ship = Vessel::new(rt.alloc())?;
    ship.begin(7, &file)?;
    let mut memory = vec![in rt.alloc(); 0u8; MEMORY]?;
    let station = Ground::open(7, &mut memory)?;
    let mut way = Way {
        ship,
        line: line(),
        station,
    };
    for round in OPENING {
        way.round(rt, round)?;
    }
    way.show_handed(rt, &file)?;
    for round in CLOSING {
        way.round(rt, round)?;
    }
    way.show_handed(rt, &file)
}
