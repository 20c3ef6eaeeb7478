// Test vectors that other libraries computed, from standard input, through the outer code, the inner code and whole frames.
#![tactic(auto)]

mod digits;
mod frames;
mod inner;
mod outer;
mod report;

use anyhow::bail;
use report::{Kind, Report};
use std::alloc::Global;
use std::fmt;
use std::io::{BufRead, BufReader};

// The tables, one behind the other in the input, each below a line that names it.
#[derive(Clone, Copy)]
enum Table {
    Outer,
    Inner,
    Frames,
}

impl fmt::Display for Table {
    fn fmt<W: fmt::Write>(&self, f: &mut fmt::Formatter<W>) -> fmt::Result {
        f.write_str(match self {
            Table::Outer => "the outer code",
            Table::Inner => "the inner code",
            Table::Frames => "frames",
        })
    }
}

// How the line above each table begins.
const HEADINGS: [(&str, Table); 3] = [
    ("# The outer code", Table::Outer),
    ("# The inner code", Table::Inner),
    ("# Whole frames", Table::Frames),
];

fn heading(line: &str) -> Option<Table> {
    HEADINGS
        .iter()
        .find(|(words, _)| line.starts_with(*words))
        .map(|(_, table)| *table)
}

// Of what kind a line of the table is, and whether it agrees with the library.
fn agrees(heap: Global, table: Table, line: &str) -> anyhow::Result<(Kind, bool)> {
    let words: Vec<&str> = line.split_ascii_whitespace().collect(heap)?;
    Ok(match (table, words.as_slice()) {
        (Table::Outer, ["encode", message, word]) => {
            (Kind::OuterEncode, outer::encodes(message, word)?)
        }
        (Table::Outer, ["repair", word, answer, repaired]) => {
            (Kind::OuterRepair, outer::repairs(word, answer, repaired)?)
        }
        (Table::Inner, ["encode", from, coded]) => {
            (Kind::InnerEncode, inner::encodes(heap, from, coded)?)
        }
        (Table::Inner, ["decode", heard, cost, sent]) => {
            (Kind::InnerDecode, inner::decodes(heap, heard, cost, sent)?)
        }
        (Table::Frames, ["send", payload, frame]) => {
            (Kind::FrameSend, frames::sends(heap, payload, frame)?)
        }
        (Table::Frames, ["hear", frame, answer, payload]) => {
            (
                Kind::FrameHear,
                frames::hears(heap, frame, answer, payload)?,
            )
        }
        _ => bail!("no line of {table}"),
    })
}

fn main(rt: HostRuntime) -> anyhow::Result<()> {
    let heap = rt.alloc();
    let mut table = Table::Outer;
    let mut report = Report::default();
    for line in BufReader::new(heap, rt.stdin())?.lines(heap) {
        let line = line?;
        if let Some(next) = heading(line.as_str()) {
            table = next;
        } else {
            let (kind, good) = agrees(heap, table, line.as_str())?;
            report.count(kind, good);
        }
    }
    report.show(&rt)
}
