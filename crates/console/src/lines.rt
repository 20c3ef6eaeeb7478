// Lines in and out: one line read, turned and printed after the other.
ghost use Rattle.std.specs.Prelude.{IfOk};
ghost use Rattle.console.specs.Answers.{Answered};

use super::{Failure, explain};
use std::io;
use std::io::{BufRead, BufReader, BufWriter, Write};
use text::Line;

// What a piece of the input was to a line.
#[derive(Clone, Copy, PartialEq, Eq, Debug)]
enum Piece {
    // a part of it
    Middle,
    // its end, with the newline
    End,
    // nothing: the input has ended
    Nothing,
}

// Takes in what the reader has, as far as the line's end.
fn take_some<R: BufRead>(input: &mut R, line: &mut Line) -> io::Result<Piece> {
    let chunk = input.fill_buf()?;
    if chunk.is_empty() {
        return Ok(Piece::Nothing);
    }
    let end = line.take_in(chunk);
    let used = end.unwrap_or(chunk.len());
    input.consume(used);
    Ok(match end {
        Some(_) => Piece::End,
        None => Piece::Middle,
    })
}

// Reads the next line as bytes, in the place of what the line held, and says whether there was one. A last line without its
// newline is a line. Of a line that is too long only the front is kept.
fn next_line<R: BufRead>(input: &mut R, line: &mut Line) -> io::Result<bool> {
    line.clear();
    // a loop must have an end: this is the form for one that ends with the input
    for _ in 0..u64::MAX {
        match take_some(input, line) {
            Ok(Piece::Middle) => {}
            Ok(Piece::End) => return Ok(true),
            Ok(Piece::Nothing) => return Ok(!line.text().is_empty()),
            Err(e) if e.kind() == io::ErrorKind::Interrupted => {}
            Err(e) => return Err(e),
        }
    }
    Err(io::Error::from(io::ErrorKind::TimedOut))
}

// Prints a line, all of it at once.
pub fn print_line(rt: &HostRuntime, line: &Line) -> io::Result<()> {
    let mut out = BufWriter::new(rt.alloc(), rt.stdout())?;
    out.write_all(line.text())?;
    out.write_all(b"\n")?;
    out.flush()
}

// For each line of standard input: the answer turns it into the line that is printed, and says whether it was the last. Ends
// there, or where the input ends, and says which: whether an answer was the last.
pub fn answer_lines<F: FnMut(&mut Line) -> Result<bool, Failure>>(
    rt: &HostRuntime,
    answer: F,
) -> Result<bool, Failure>
    requires { F.IsAlwaysCallable answer }
    ensures { IfOk result (λ last. Answered F.step answer last) }
{
    let mut input = BufReader::new(rt.alloc(), rt.stdin())?;
    answer_lines_of(rt, &mut input, answer)
}

// The same for a reader that the caller has made, so that something can be printed between the making, which takes memory, and
// the first line.
pub fn answer_lines_of<R: BufRead, F: FnMut(&mut Line) -> Result<bool, Failure>>(
    rt: &HostRuntime,
    input: &mut R,
    mut answer: F,
) -> Result<bool, Failure>
    requires { F.IsAlwaysCallable answer }
    ensures { IfOk result (λ last. Answered F.step answer last) }
{
    let mut line = Line::new();
    for n in 1..u64::MAX {
        if !next_line(input, &mut line)? {
            break;
        }
        let last = answer(&mut line).map_err(|failure| {
            explain(
                rt,
                format_args!("line {n} is neither empty nor a frame of 4,092 digits 0 and 1"),
                failure,
            )
        })?;
        print_line(rt, &line)?;
        if last {
            return Ok(true);
        }
    }
    Ok(false)
}
