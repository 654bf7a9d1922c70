// Reads jobs from standard input, and writes an answer to each to standard output.
//
// A job is two bytes, the number of its bytes, and then those. An answer is a byte, the number of the refusal or 0, and four bytes: the
// refusal's position or, with 0, the number of bytes that the job is written as; and then those, and the verdict. A verdict is the kind,
// a byte for each of 16 columns, and two databases: for each of 4 tables a byte, 1 where it has its row, and for each column its value in
// four bytes. All numbers have their low byte first. Where the input ends within a job, nothing more is answered.
#![tactic(auto)]

ghost use Rattle.std.specs.Prelude.{◌+◌, ◌<◌, ◌≤◌, length};

use databases::Database;
use job::Job;
use layout::Refusal;
use std::io::{ErrorKind, Read, Result, Write};
use verdict::Verdict;

// A refusal's number or 0, and the four bytes behind it: bytes of the output, and no more than that.
fn put_head(output: &mut impl Write, number: u8, n: usize) -> Result<()> {
    let mut head = [number; 5];
    head[1..].copy_from_slice(&n.to_le_bytes()[..4]);
    output.write_all(&head)
}

fn put_database(d: Database, out: &mut [u8])
    requires { 68 ≤ length out.old }
{
    for (t, present) in d.present.iter().enumerate() {
        out[t] = u8::from(*present);
    }
    for (c, value) in d.values.iter().enumerate() {
        words::write(out, Job::TABLES + c * 4, *value);
    }
}

fn put_verdict(output: &mut impl Write, v: Verdict) -> Result<()> {
    let mut out = [0u8; 153];
    out[0] = u8::from(v.kind);
    for (c, held) in v.listing.iter().enumerate() {
        out[1 + c] = u8::from(*held);
    }
    put_database(v.databases.first, &mut out[17..85]);
    put_database(v.databases.second, &mut out[85..]);
    output.write_all(&out)
}

fn put_refusal(output: &mut impl Write, r: Refusal) -> Result<()> {
    put_head(output, u8::from(r.fault), r.at)
}

fn answer_whole(output: &mut impl Write, job: Job) -> Result<()> {
    let mut out = [0u8; writer::MAX_JOB_BYTES];
    match pobghine::write(job, &mut out) {
        Ok(n) => {
            put_head(output, 0, n)?;
            output.write_all(&out[..n])?;
        }
        Err(r) => return put_refusal(output, r),
    }
    match pobghine::decide(job) {
        Ok(v) => put_verdict(output, v),
        // What is written is decided, so this never comes up.
        Err(_refusal) => Err(ErrorKind::InvalidData.into()),
    }
}

// Reads a job into s, which it fills, and answers it.
fn answer_job<R: Read, W: Write>(input: &mut R, output: &mut W, s: &mut [u8]) -> Result<()> {
    input.read_exact(s)?;
    match pobghine::read(s) {
        Ok(job) => answer_whole(output, job),
        Err(r) => put_refusal(output, r),
    }
}

fn next_job<R: Read, W: Write>(input: &mut R, output: &mut W, s: &mut [u8]) -> Result<()>
    requires { 65535 ≤ length s.old }
{
    let mut head = [0u8; 2];
    input.read_exact(&mut head)?;
    let size = usize::from(u16::from_le_bytes(head));
    answer_job(input, output, &mut s[..size])
}

fn main(rt: HostRuntime) {
    let mut input = rt.stdin();
    let mut output = rt.stdout();
    let mut s = [0u8; 65535];
    // A loop ends by a count; no input has so many jobs.
    for _ in 0..u64::MAX {
        if next_job(&mut input, &mut output, &mut s).is_err() {
            return;
        }
    }
}
