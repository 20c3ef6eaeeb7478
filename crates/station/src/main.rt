// `station N FILE`: receives the file of number N. For each line that it reads, a frame or an empty one, it prints its answer's frame, or an empty line while it has none; FILE is written once, when all of it is there.
#![tactic(auto)]

use console::Failure;
use ends::{hand_over, leave_once, station_answers, station_hears};
use link::TheGround;
use std::process::ExitCode;
use transfer::ship::LONGEST;
use transfer::station::{Leave, MEMORY};

const USAGE: &str =
    "usage: station N FILE, N from 0 to 255; what is heard comes on standard input, a frame or an empty line at a time";

// Writes the file, by spending the leave.
fn write_file(
    rt: &HostRuntime,
    path: &str,
    station: &TheGround,
    leave: Leave,
) -> Result<(), Failure> {
    let mut out = [0u8; LONGEST];
    let count = hand_over(station, leave, &mut out);
    console::write_file(rt, path, &out[..count])?;
    Ok(())
}

// An answer for each line, until the input ends. The file is written before the answer that says so is printed.
fn listen(rt: &HostRuntime, path: &str, station: &mut TheGround) -> Result<(), Failure> {
    let mut written = false;
    console::answer_lines(rt, |line| {
        station_hears(station, line)?;
        if let Some(leave) = leave_once(station, written) {
            write_file(rt, path, station, leave)?;
            written = true;
        }
        station_answers(station, line);
        Ok(false)
    })?;
    Ok(())
}

fn run(rt: &HostRuntime) -> Result<(), Failure> {
    let args = console::arguments(rt)?;
    let (number, path) = console::number_and_file(args.as_slice()).map_err(|e| console::explain(
        rt,
        USAGE,
        e.into(),
    ))?;
    let mut memory = vec![in rt.alloc(); 0u8; MEMORY]?;
    let mut station = TheGround::open(number, memory.as_mut_slice())?;
    listen(rt, path, &mut station)
}

fn main(rt: HostRuntime) -> ExitCode {
    console::exit_code(console::end(&rt, run(&rt)))
}
