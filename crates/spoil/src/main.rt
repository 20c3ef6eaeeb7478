// `spoil SEED P`: lines of digits from standard input, spoiled as a bad line would, to standard output.
// A line becomes an empty one with probability 1 in 16; else each of its digits is changed with probability P in 65,536.
#![tactic(auto)]

use bits::Refusal;
use console::Failure;
use std::process::ExitCode;
use text::{Noise, spoil_line};

const USAGE: &str =
    "usage: spoil SEED P, SEED from 0 to 18446744073709551615, P from 0 to 65536; lines come on standard input";

// The noise's seed, and the probability: a pair, since its caller takes it apart at once.
fn settings(rt: &HostRuntime) -> Result<(u64, u32), Failure> {
    let args = console::arguments(rt)?;
    let [_, seed, p] = args.as_slice() else {
        return Err(Failure::Refused(Refusal::UnknownText));
    };
    let seed = text::number(seed.as_bytes(), u64::MAX)?;
    let p = text::chance(p.as_bytes())?;
    Ok((seed, p))
}

fn run(rt: &HostRuntime) -> Result<(), Failure> {
    let (seed, p) = settings(rt).map_err(|e| console::explain(rt, USAGE, e))?;
    let mut noise = Noise::new(seed);
    console::answer_lines(rt, |line| {
        spoil_line(&mut noise, p, line)?;
        Ok(false)
    })?;
    Ok(())
}

fn main(rt: HostRuntime) -> ExitCode {
    console::exit_code(console::end(&rt, run(&rt)))
}
