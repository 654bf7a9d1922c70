// Reads a job from standard input, decides on it, and prints the verdict, or the refusal.
//
// It prints neither for input that it could not read to its end, or as far as the answer takes. Where reading or printing
// fails, standard error has one line that says why. A caller can tell by nothing else: the exit status is 0 all the same.
#![tactic(auto)]

mod failure;
mod wait;

ghost use Rattle.std.specs.Prelude.{◌<◌, ◌≤◌, length, take, IfOk, IfErr, OnOk, IfSome};
ghost use Rattle.std.specs.Io.KnownBytes.{Appends, Consumes, IsAtEnd};
ghost use Rattle.report.specs.Printed.{printed};
ghost use Rattle.decide.specs.Silent.{Silent};

use failure::Failure;
use std::io;
use std::io::{ErrorKind, Read, Write};
use std::time::Clock;

// How many bytes are read. No job has more than 579, and the first 600 tell what is printed for longer input.
const ENOUGH: usize = 600;

// Reads until the input ends or s is full. A call takes as many bytes as it likes, so the loop counts these. This and `write_output` stay
// two loops: one function for both would take the call as a closure, over a stream and bytes that are lent to be read or to be written, and
// its contract would speak of any closure's calls before either could say what its stream then has.
fn read_input<R: Read>(clock: &impl Clock, input: &mut R, s: &mut [u8]) -> io::Result<usize>
    ensures within { IfOk result (λ n. n ≤ length s.new) }
    ensures bytes { IfOk result (λ n. Consumes (R.remaining input.old) (R.remaining input.new) (take n s.new)) }
    ensures end { IfOk result (λ n. n < length s.new → IsAtEnd (R.remaining input.new)) }
{
    let mut done = 0;
    let mut left = wait::TIMEOUT;
    while done < s.len() {
        match input.read(&mut s[done..]) {
            Ok(0) => break,
            Ok(n) => done += n,
            Err(error) => {
                left = wait::again(clock, error.kind(), left).ok_or(error)?;
            }
        }
    }
    Ok(done)
}

// Writes all of s, in a loop as that of reading; but a write that takes nothing counts as one that failed.
fn write_output<W: Write>(clock: &impl Clock, output: &mut W, s: &[u8]) -> io::Result<()>
    ensures { OnOk result (Appends (W.contents output.old) (W.contents output.new) s.now) }
{
    let mut done = 0;
    let mut left = wait::TIMEOUT;
    while done < s.len() {
        match output.write(&s[done..]) {
            Ok(0) => return Err(io::Error::from(ErrorKind::WriteZero)),
            Ok(n) => done += n,
            Err(error) => {
                left = wait::again(clock, error.kind(), left).ok_or(error)?;
            }
        }
    }
    Ok(())
}

// Decides on the job that s has, and prints the answer.
fn answer<W: Write>(clock: &impl Clock, output: &mut W, s: &[u8]) -> io::Result<()>
    ensures { OnOk result (Appends (W.contents output.old) (W.contents output.new) (printed s.now)) }
{
    let mut out = [0u8; report::MOST];
    let n = report::text(s, &mut out);
    write_output(clock, output, &out[..n])
}

// All of it, on any input and output: what is printed is the answer to all that the input has, though only its front is read.
fn run<R: Read, W: Write>(clock: &impl Clock, input: &mut R, output: &mut W) -> Result<(), Failure>
    ensures answer { OnOk result (IfSome (R.remaining input.old)
        (λ s. Appends (W.contents output.old) (W.contents output.new) (printed s))) }
    ensures silent { IfErr result (Silent (W.contents output.old) (W.contents output.new)) }
{
    let mut s = [0u8; ENOUGH];
    let n = read_input(clock, input, &mut s).map_err(Failure::Input)?;
    answer(clock, output, &s[..n]).map_err(Failure::Output)
}

fn main(rt: HostRuntime) {
    if let Err(failure) = run(&rt, &mut rt.stdin(), &mut rt.stdout()) {
        failure::tell(&rt, failure);
    }
}
