// `ship N FILE`: sends FILE under the number N. It prints a frame, and then for each line that it reads, a frame or an empty one, its next frame; `done` once the other side has it all.
#![tactic(auto)]

use console::Failure;
use ends::{ship_first, ship_turn};
use link::TheLink;
use std::io::BufReader;
use std::process::ExitCode;
use text::Line;
use transfer::ship::LONGEST;

const USAGE: &str =
    "usage: ship N FILE, N from 0 to 255, FILE of at most 214,000 bytes; what is heard comes on standard input, a frame or an empty line at a time";

// The first frame, and then a frame for each line, until the ship is done or the input ends.
fn sail(rt: &HostRuntime, link: &mut TheLink) -> Result<(), Failure> {
    let mut input = BufReader::new(rt.alloc(), rt.stdin())?;
    let mut first = Line::new();
    ship_first(link, &mut first);
    console::print_line(rt, &first)?;
    if console::answer_lines_of(rt, &mut input, |line| Ok(ship_turn(link, line)?))? {
        println!(rt; "done")?;
    }
    Ok(())
}

fn run(rt: &HostRuntime) -> Result<(), Failure> {
    let args = console::arguments(rt)?;
    let (number, path) = console::number_and_file(args.as_slice()).map_err(|e| console::explain(
        rt,
        USAGE,
        e.into(),
    ))?;
    let content = console::read_file(rt, path, LONGEST)?;
    let mut link = TheLink::new(rt.alloc())?;
    link.vessel.load(number, content.as_slice())?;
    sail(rt, &mut link)
}

fn main(rt: HostRuntime) -> ExitCode {
    console::exit_code(console::end(&rt, run(&rt)))
}
