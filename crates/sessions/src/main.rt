// Sessions of ship and station by the calls that the programs make, and what they refuse: each case with what came and what should.
#![tactic(auto)]

mod arguments;
mod cases;
mod files;
mod lines;
mod pair;
mod stories;
mod table;

use cases::Cases;
use link::{TheGround, TheLink};
use pair::Pair;
use std::alloc::{AllocError, Global};
use table::Table;
use text::Line;
use transfer::ship::LONGEST;
use transfer::station::MEMORY;

// Bytes of which each file is the first ones.
fn pool(heap: Global) -> Result<Vec<u8>, AllocError> {
    (0..214001u32)
        .map(|i| (u64::from(i) * 7 / 3 % 251) as u8)
        .collect(heap)
}

fn sessions(mut cases: Cases<'_>, rt: &HostRuntime) -> anyhow::Result<()> {
    files::all(&mut cases, rt)?;
    stories::all(&mut cases, rt)
}

fn main(rt: HostRuntime) -> anyhow::Result<()> {
    let pool = pool(rt.alloc())?;
    let link = TheLink::new(rt.alloc())?;
    let mut memory = vec![in rt.alloc(); 255u8; MEMORY]?;
    let mut out = [238u8; LONGEST];
    let mut table = Table::default();
    let station = TheGround::open(7, &mut memory)?;
    let line = Line::new();
    let pair = Pair {
        link,
        station,
        line,
    };
    let cases = Cases {
        table: &mut table,
        pair,
        pool: &pool,
        out: &mut out,
    };
    sessions(cases, &rt)?;
    arguments::all(&rt, &mut table)?;
    arguments::memories(&rt, &mut table)?;
    table.show(&rt)
}
