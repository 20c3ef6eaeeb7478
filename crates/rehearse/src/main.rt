// `rehearse N FILE SEED P ROUNDS`: plays ship, spoil, station and spoil again on one table, and prints what was heard each way, how many bits were wrong, and after how many rounds FILE was handed over.
#![tactic(auto)]

mod progress;

use bits::Refusal;
use console::Failure;
use link::TheLink;
use progress::Progress;
use rehearsal::{Rehearsal, Report};
use std::process::ExitCode;
use transfer::ship::LONGEST;
use transfer::station::MEMORY;

const USAGE: &str =
    "usage: rehearse N FILE SEED P ROUNDS, N from 0 to 255, FILE of at most 214,000 bytes, SEED and ROUNDS from 0 to 18446744073709551615, P from 0 to 65536";

// What a rehearsal is called with.
#[derive(Clone, Copy)]
struct Call<'a> {
    number: u8,
    path: &'a str,
    seed: u64,
    p: u32,
    rounds: u64,
}

// The arguments, the program's own name first. Another count of them, or another form of a number, is refused.
fn read_call(args: &[String]) -> Result<Call<'_>, Refusal> {
    let [_, number, path, seed, p, rounds] = args else {
        return Err(Refusal::UnknownText);
    };
    let number = text::file_number(number.as_bytes())?;
    let seed = text::number(seed.as_bytes(), u64::MAX)?;
    let p = text::chance(p.as_bytes())?;
    let rounds = text::number(rounds.as_bytes(), u64::MAX)?;
    Ok(Call {
        number,
        path: path.as_str(),
        seed,
        p,
        rounds,
    })
}

// Plays all rounds, or until the ship is done; where progress is asked for, it is shown on the way.
fn play(rt: &HostRuntime, rehearsal: &mut Rehearsal, rounds: u64, progress: Option<Progress>) {
    if let Some(progress) = progress {
        for stop in (progress.every..rounds).step_by(progress.every as usize) {
            rehearsal.go_on(stop);
            if rehearsal.report().outcome.told {
                break;
            }
            progress.show(rt, rehearsal);
        }
    }
    rehearsal.go_on(rounds);
}

// What there is to report. (No Display of the report: the last line also needs the rounds that were asked for.)
fn print(rt: &HostRuntime, report: &Report, rounds: u64) -> Result<(), Failure> {
    println!(rt; "heard by station {}", report.counts.below)?;
    println!(rt; "heard by ship {}", report.counts.above)?;
    println!(rt; "wrong bits {}", report.counts.wrong)?;
    match report.outcome.complete {
        Some(round) => println!(rt; "handed over after {round} rounds")?,
        None => println!(rt; "not after {rounds}")?,
    }
    Ok(())
}

fn run(rt: &HostRuntime) -> Result<(), Failure> {
    let args = console::arguments(rt)?;
    let call = read_call(args.as_slice()).map_err(|e| console::explain(rt, USAGE, e.into()))?;
    let content = console::read_file(rt, call.path, LONGEST)?;
    let link = TheLink::new(rt.alloc())?;
    let mut memory = vec![in rt.alloc(); 0u8; MEMORY]?;
    let mut rehearsal = Rehearsal::open(
        link,
        memory.as_mut_slice(),
        call.number,
        content.as_slice(),
        call.seed,
        call.p,
    )?;
    let progress = Progress::asked(rt, content.len());
    play(rt, &mut rehearsal, call.rounds, progress);
    print(rt, &rehearsal.report(), call.rounds)?;
    if let Some(progress) = progress {
        progress.summary(rt, &rehearsal);
    }
    Ok(())
}

fn main(rt: HostRuntime) -> ExitCode {
    console::exit_code(console::end(&rt, run(&rt)))
}
