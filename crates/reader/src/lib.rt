// Job bytes: reading them into a record, command after command.
#![tactic(auto)]

ghost use Rattle.std.specs.Prelude.{◌≡◌, ◌<◌, length};
ghost use Rattle.layout.specs.Faults.{refusal_of};
ghost use Rattle.layout.specs.Reading.{read_of};
ghost use Rattle.commands.specs.Reached.{step_at};
ghost use Rattle.commands.specs.Uses.{refused_at, stepped_of};
ghost use Rattle.reader.specs.Answers.{decoded_of};

use commands::Progress;
use job::Job;
use layout::{Fault, Refusal};

// The refusal of bytes that end before the job does.
fn missing(s: &[u8]) -> Refusal
    ensures { result ≡ refusal_of 2 (length s.now) }
{
    Refusal {
        fault: Fault::Missing,
        at: s.len(),
    }
}

// The command that is due, through the checks 3 to 10: whether the job ends with it.
#[tactic(auto, using(crate::proofs::Steps::refusals))]
fn take(p: &mut Progress) -> Result<bool, Fault>
    requires { p.old.at < length p.old.bytes }
    ensures { (refused_at p.old.at result, p.new) ≡ stepped_of p.old (step_at p.old) }
{
    let Some(c) = p.due() else {
        return Err(Fault::Unlisted);
    };
    if !p.follows(c) {
        return Err(Fault::OutOfOrder);
    }
    if !p.has_room(c) {
        return Err(Fault::NoRoom);
    }
    if !p.has_operands(c) {
        return Err(Fault::NoOperands);
    }
    p.go_on(c)
}

// One command, through the checks 2 to 10: whether the job ends with it.
#[tactic(auto, using(crate::proofs::Steps::step_none))]
fn step(p: &mut Progress) -> Result<bool, Refusal>
    ensures { (result, p.new) ≡ stepped_of p.old (step_at p.old) }
{
    let at = p.at();
    if at >= p.bytes().len() {
        return Err(missing(p.bytes()));
    }
    take(p).map_err(|fault| Refusal { fault, at })
}

// The job that some bytes stand for, or the first thing that is wrong with them. A command takes a byte or more, so that there are as many
// commands as bytes at most.
#[tactic(auto, using(crate::proofs::Turns::not_started, crate::proofs::Turns::none_left))]
pub fn read(s: &[u8]) -> Result<Job, Refusal>
    ensures { result ≡ decoded_of (read_of s.now) }
{
    if !commands::is_start(s) {
        return Err(Refusal {
            fault: Fault::Start,
            at: 0,
        });
    }
    let mut p = Progress::new(s);
    for _ in 0..s.len() {
        // taken apart by let .. else, as document 01 has it
        let took = step(&mut p);
        let Ok(ended) = took else {
            return Err(took.unwrap_err());
        };
        if ended {
            let at = p.at();
            if at != s.len() {
                return Err(Refusal {
                    fault: Fault::Trailing,
                    at,
                });
            }
            return Ok(p.into_job());
        }
    }
    Err(missing(s))
}
