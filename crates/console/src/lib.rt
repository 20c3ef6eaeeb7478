// What every program does: arguments, lines in and out, whole files, and how it ends. Nothing can be said in a contract of what
// is read or printed, so these functions, but for the status of an end, are proved safe and ending only; what they hand on is proved in the crates below.
#![tactic(auto)]

ghost use Rattle.std.specs.Prelude.{◌≡◌, MatchResult};
ghost use Rattle.std.specs.Process.{exit_status};

mod files;
mod lines;

use bits::Refusal;
pub use files::{read_file, write_file};
pub use lines::{answer_lines, answer_lines_of, print_line};
use std::alloc::AllocError;
use std::process::ExitCode;
use std::{env, fmt, io};

// Why a program ends before its work is done.
#[derive(Clone, Copy)]
pub enum Failure {
    // it was given what it does not take
    Refused(Refusal),
    // input, output or memory failed
    Broken(io::Error),
}

impl From<Refusal> for Failure {
    fn from(refusal: Refusal) -> Failure {
        Failure::Refused(refusal)
    }
}

impl From<io::Error> for Failure {
    fn from(error: io::Error) -> Failure {
        Failure::Broken(error)
    }
}

impl From<AllocError> for Failure {
    fn from(error: AllocError) -> Failure {
        Failure::Broken(io::Error::from(error))
    }
}

impl fmt::Display for Failure {
    fn fmt<W: fmt::Write>(&self, f: &mut fmt::Formatter<W>) -> fmt::Result {
        match self {
            Failure::Refused(refusal) => write!(f, "refused: {refusal}"),
            Failure::Broken(error) => write!(f, "failed: {error}"),
        }
    }
}

// The arguments, the program's own name first. Bytes that are no text are refused.
pub fn arguments(rt: &HostRuntime) -> Result<Vec<String>, Failure> {
    let args = env::args(rt).map_err(|e| match e.kind() {
        io::ErrorKind::InvalidData => Failure::Refused(Refusal::UnknownText),
        _ => Failure::Broken(e),
    })?;
    Ok(args.collect(rt.alloc())?)
}

// The arguments of a program that is called with a file's number and a file's name. Another count of arguments, or another form of the number, is refused.
// A pair, since callers take it apart at once; the path is borrowed from the arguments, so that these stay with the caller.
pub fn number_and_file(args: &[String]) -> Result<(u8, &str), Refusal> {
    let [_, number, path] = args else {
        return Err(Refusal::UnknownText);
    };
    Ok((text::file_number(number.as_bytes())?, path.as_str()))
}

// Where something was refused, says what it should have been: how the program is called, or what a line is.
pub fn explain<T: fmt::Display + Drop>(rt: &HostRuntime, text: T, failure: Failure) -> Failure {
    if let Failure::Refused(_) = failure {
        let _ = rt.eprintln(text);
    }
    failure
}

// Says how a program ended: a refusal as its last line, with the reason on standard error; a failure on standard error alone.
// The result is handed on.
pub fn end(rt: &HostRuntime, res: Result<(), Failure>) -> Result<(), Failure> {
    res.inspect_err(|failure| {
        if let Failure::Refused(refusal) = failure {
            let number = refusal.code();
            let _ = println!(rt; "refused {number}");
        }
        let _ = eprintln!(rt; "{failure}");
    })
}

// The status that a `main` ends with: 0, or 1 where there was an error, of which `end` has said all that is to be said.
pub fn exit_code(res: Result<(), Failure>) -> ExitCode
    ensures { MatchResult res (λ _. exit_status result ≡ 0) (λ _. exit_status result ≡ 1) }
{
    match res {
        Ok(()) => ExitCode::SUCCESS,
        Err(_) => ExitCode::FAILURE,
    }
}
