// Numbers as arguments, and memory lent to a station.
use super::table::Table;
use bits::Refusal;
use link::station_opens;

// A text, its value, and what the three readers make of it: 0 taken with that value, 5 refused.
const TEXTS: [(&str, u64, [u64; 3]); 14] = [
    ("0", 0, [0, 0, 0]),
    ("255", 255, [0, 0, 0]),
    ("256", 256, [5, 0, 0]),
    ("00007", 7, [0, 0, 0]),
    ("+7", 7, [5, 5, 5]),
    ("-7", 7, [5, 5, 5]),
    ("", 0, [5, 5, 5]),
    (" 7", 7, [5, 5, 5]),
    ("7 ", 7, [5, 5, 5]),
    ("7a", 7, [5, 5, 5]),
    ("65536", 65536, [5, 0, 0]),
    ("65537", 65537, [5, 5, 0]),
    ("18446744073709551615", 18446744073709551615, [5, 5, 0]),
    ("18446744073709551616", 0, [5, 5, 5]),
];

// Whether another value was read than this one.
fn other<T: Into<u64>>(read: Result<T, Refusal>, value: u64) -> Result<bool, Refusal> {
    Ok(read?.into() != value)
}

pub fn all(rt: &HostRuntime, table: &mut Table) -> anyhow::Result<()> {
    println!(rt;
        "an argument, as the number of a file, as a chance, as a seed: 0 taken with its value, 1 with another, 5 refused"
    )?;
    for (text, value, expected) in TEXTS {
        let bytes = text.as_bytes();
        let came = (
            other(text::file_number(bytes), value),
            other(text::chance(bytes), value),
            other(text::number(bytes, u64::MAX), value),
        );
        table.row(rt, text, came, expected)?;
    }
    Ok(())
}

// The name of lent memory in the table, its length, the answer, and how many of its bytes stay as they were.
const MEMORIES: [(&str, usize, u64, u64); 3] = [
    ("one too few", 214999, 4, 214999),
    ("one too many", 215001, 4, 215001),
    ("just right", 215000, 0, 214000),
];

pub fn memories(rt: &HostRuntime, table: &mut Table) -> anyhow::Result<()> {
    println!(rt; "memory lent to a station: its length, the answer, bytes that are as they were")?;
    for (name, length, answer, left) in MEMORIES {
        let mut memory = vec![in rt.alloc(); 255u8; length]?;
        let opened = station_opens(7, &mut memory);
        let full = memory.iter().filter(|b| **b == 255).count();
        table.row(
            rt,
            name,
            (length, opened, full),
            [length as u64, answer, left],
        )?;
    }
    Ok(())
}
