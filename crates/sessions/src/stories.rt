// What each end says behind lines made by hand: kind, file, number, as they stand in the payload's bytes.
use super::cases::Cases;
use super::lines::{line_of, said_by, told};
use super::pair::Pair;
use bits::Refusal;
use text::Line;

// The station's answer behind a line.
fn answer(pair: &mut Pair<'_>, line: &Line) -> (u8, u8, u16) {
    let mut back = Line::new();
    let _ = pair.hears(line);
    pair.answers(&mut back);
    told(&back)
}

// A line for the station: its name, kind, file, number, count, four bytes; and the answer.
const DOWN: [(&str, [u8; 4], [u8; 4], [u64; 3]); 12] = [
    (
        "part 0 of 300 bytes: no length yet",
        [1, 7, 0, 4],
        [1, 2, 3, 4],
        [0, 0, 0],
    ),
    (
        "an end of another file",
        [2, 8, 1, 4],
        [0, 0, 0, 4],
        [0, 0, 0],
    ),
    (
        "an end of 300 bytes",
        [2, 7, 2, 4],
        [0, 0, 1, 44],
        [3, 7, 1],
    ),
    (
        "part 1 of another file",
        [1, 8, 1, 4],
        [9, 9, 9, 9],
        [3, 7, 1],
    ),
    (
        "an end of another file",
        [2, 8, 0, 4],
        [0, 0, 0, 0],
        [3, 7, 1],
    ),
    (
        "part 0 once more, with other bytes",
        [1, 7, 0, 4],
        [9, 9, 9, 9],
        [3, 7, 1],
    ),
    ("an ask", [3, 7, 1, 0], [0, 0, 0, 0], [3, 7, 1]),
    ("part 1", [1, 7, 1, 4], [5, 6, 7, 8], [4, 7, 0]),
    (
        "an end of 600 bytes",
        [2, 7, 3, 4],
        [0, 0, 2, 88],
        [3, 7, 2],
    ),
    (
        "an end of 214,001 bytes",
        [2, 7, 0, 4],
        [0, 3, 67, 241],
        [3, 7, 2],
    ),
    ("an end of 4 bytes", [2, 7, 1, 4], [0, 0, 0, 4], [4, 7, 0]),
    ("an all-there", [4, 7, 0, 0], [0, 0, 0, 0], [4, 7, 0]),
];

fn station(cases: &mut Cases<'_>, rt: &HostRuntime) -> anyhow::Result<()> {
    println!(rt; "the station's answer behind a line: kind, file, number")?;
    let nothing = cases.first(0);
    cases.pair.begin(nothing);
    for (name, head, bytes, expected) in DOWN {
        let line = said_by(head, bytes);
        let came = answer(&mut cases.pair, &line);
        cases.table.row(rt, name, came, expected)?;
        let came = answer(&mut cases.pair, &line_of(b""));
        cases
            .table
            .row(rt, "and behind an empty line", came, expected)?;
    }
    let handed = cases.pair.handed(&[1, 2, 3, 4], cases.out);
    cases.table.row(
        rt,
        "bytes handed over, the first ones heard",
        (handed, (), ()),
        [4, 0, 0],
    )
}

// A line for the ship of 300 bytes: its name, kind, file, number; whether the ship is done; and what it says.
const UP: [(&str, [u8; 3], bool, [u64; 3]); 11] = [
    ("an ask of another file", [3, 8, 0], false, [2, 7, 2]),
    ("an ask for part 1", [3, 7, 1], false, [1, 7, 1]),
    ("an all-there of another file", [4, 8, 0], false, [2, 7, 2]),
    ("an ask for part 2 of two", [3, 7, 2], false, [2, 7, 2]),
    ("an ask for part 0", [3, 7, 0], false, [1, 7, 0]),
    ("a part", [1, 7, 0], false, [1, 7, 1]),
    ("an end", [2, 7, 0], false, [2, 7, 2]),
    ("an all-there", [4, 7, 0], true, [2, 7, 2]),
    ("an all-there once more", [4, 7, 0], true, [2, 7, 2]),
    ("an all-there of another file", [4, 8, 0], true, [2, 7, 2]),
    ("an ask for part 1", [3, 7, 1], true, [1, 7, 1]),
];

// The ship's turn on a line: whether it is done; kind and number of what it says.
fn turn(pair: &mut Pair<'_>, mut line: Line) -> (Result<bool, Refusal>, u8, u16) {
    let done = pair.turn(&mut line);
    let (kind, _, number) = told(&line);
    (done, kind, number)
}

fn ship(cases: &mut Cases<'_>, rt: &HostRuntime) -> anyhow::Result<()> {
    println!(rt;
        "the ship's turn on a line, behind its first frame: whether it is done; kind and number of what it says"
    )?;
    let content = cases.first(300);
    cases.pair.begin(content);
    let came = turn(&mut cases.pair, line_of(b""));
    cases.table.row(rt, "an empty line", came, [0, 1, 1])?;
    for (name, [kind, file, number], done, [x, _, z]) in UP {
        let came = turn(&mut cases.pair, said_by([kind, file, number, 0], [0; 4]));
        cases.table.row(rt, name, came, [u64::from(done), x, z])?;
    }
    let came = turn(&mut cases.pair, line_of(b""));
    cases.table.row(rt, "an empty line", came, [1, 2, 2])
}

pub fn all(cases: &mut Cases<'_>, rt: &HostRuntime) -> anyhow::Result<()> {
    station(cases, rt)?;
    ship(cases, rt)
}
