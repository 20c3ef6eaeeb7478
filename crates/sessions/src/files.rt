// Whole sessions, and what must be refused on the way.
use super::cases::{Cases, first};
use super::lines::line_of;
use bits::Refusal;
use text::LONGEST;
use transfer::ship;

// A file's length, its name in the table, and the rounds of a clean session: one more than it has parts.
const FILES: [(usize, &str, u64); 8] = [
    (0, "0 bytes", 1),
    (1, "1 byte", 2),
    (213, "213 bytes", 2),
    (214, "214 bytes", 2),
    (215, "215 bytes", 3),
    (428, "428 bytes", 3),
    (600, "600 bytes", 4),
    (5000, "5,000 bytes", 25),
];

fn whole(cases: &mut Cases<'_>, rt: &HostRuntime) -> anyhow::Result<()> {
    println!(rt;
        "a clean session: rounds until done, round in which the file was first handed over, bytes as in the file"
    )?;
    for (length, name, rounds) in FILES {
        let content = cases.first(length);
        cases.pair.begin(content);
        let played = cases.pair.play(cases.out);
        let handed = cases.pair.handed(content, cases.out);
        cases.table.row(
            rt,
            name,
            (played.done, played.handed, handed),
            [rounds, rounds, length as u64],
        )?;
    }
    Ok(())
}

// A line of no known form: so many zeros, with this byte at a place.
const BAD: [(&str, usize, usize, u8); 10] = [
    ("4,091 digits", 4091, 0, b'0'),
    ("4,093 digits", 4093, 4092, b'0'),
    ("one digit", 1, 0, b'1'),
    ("a 2 among the digits", 4092, 100, b'2'),
    ("a carriage return behind them", 4093, 4092, b'\r'),
    ("a carriage return alone", 1, 0, b'\r'),
    ("a space in front", 4092, 0, b' '),
    ("a space behind", 4093, 4092, b' '),
    ("a byte of 0", 4092, 4091, 0),
    ("a byte that is no text", 4092, 2000, 255),
];

const WORDS: [(&str, &[u8]); 2] = [("done", b"done"), ("refused 5", b"refused 5")];

// In the second round of a session of 300 bytes both ends hear a bad line: the answers of both, and the rounds that are left.
fn refused(
    cases: &mut Cases<'_>,
    text: &[u8],
) -> (Result<(), Refusal>, Result<bool, Refusal>, Option<u64>) {
    let content = cases.first(300);
    cases.pair.begin(content);
    let _ = cases.pair.round();
    let mut bad = line_of(text);
    let below = cases.pair.hears(&bad);
    let above = cases.pair.turn(&mut bad);
    let left = cases.pair.play(cases.out);
    (below, above, left.done)
}

fn bad_lines(cases: &mut Cases<'_>, rt: &HostRuntime) -> anyhow::Result<()> {
    println!(rt;
        "a bad line behind round 1 of 3: the station's refusal, the ship's, rounds that are left"
    )?;
    for (name, length, place, byte) in BAD {
        let mut text = [b'0'; LONGEST];
        if let Some(x) = text.get_mut(place) {
            *x = byte;
        }
        let came = refused(cases, first(&text, length));
        cases.table.row(rt, name, came, [5, 5, 2])?;
    }
    for (name, text) in WORDS {
        let came = refused(cases, text);
        cases.table.row(rt, name, came, [5, 5, 2])?;
    }
    let came = refused(cases, b"");
    cases.table.row(
        rt,
        "an empty line, no refusal; the frame that the ship then says, its end, is lost",
        came,
        [0, 0, 2],
    )
}

// A file that is too long, behind round 1 of 3.
fn too_long(cases: &mut Cases<'_>, rt: &HostRuntime) -> anyhow::Result<()> {
    println!(rt;
        "a file begun behind round 1 of 3: its refusal, rounds that are left, bytes of the first file"
    )?;
    let content = cases.first(300);
    cases.pair.begin(content);
    let _ = cases.pair.round();
    let longer = cases.first(ship::LONGEST + 1);
    let loaded = cases.pair.load(8, longer);
    let left = cases.pair.play(cases.out);
    let handed = cases.pair.handed(content, cases.out);
    cases.table.row(
        rt,
        "214,001 bytes",
        (loaded, left.done, handed),
        [3, 2, 300],
    )?;
    let longest = cases.first(ship::LONGEST);
    let loaded = cases.pair.load(8, longest);
    cases
        .table
        .row(rt, "214,000 bytes", (loaded, (), ()), [0, 0, 0])
}

pub fn all(cases: &mut Cases<'_>, rt: &HostRuntime) -> anyhow::Result<()> {
    whole(cases, rt)?;
    bad_lines(cases, rt)?;
    too_long(cases, rt)
}
