// The entry points of the part. None asks anything of its caller.
#![tactic(auto)]

ghost use Rattle.std.specs.Prelude.{◌≡◌, cond, ◌++◌, ◌≤◌, map, length, drop, Ok, Err, IfOk};
ghost use Rattle.model.specs.Answers.{number_of_held};
ghost use Rattle.layout.specs.Faults.{refusal_of};
ghost use Rattle.layout.specs.Reading.{read_of};
ghost use Rattle.reader.specs.Answers.{decoded_of};
ghost use Rattle.verdict.specs.Verdict.{listing_record, HandsOut};
ghost use Rattle.pobghine.specs.Records.{is_read, bytes_of, written_of, lent_after};
ghost use Rattle.pobghine.specs.Deciding.{decision_of, kind_in};

use job::Job;
use layout::{Fault, Refusal};
use verdict::Verdict;

// Reads a job: its record, or a refusal.
pub fn read(s: &[u8]) -> Result<Job, Refusal>
    ensures { result ≡ decoded_of (read_of s.now) }
{
    reader::read(s)
}

// Writes a record's bytes, and says how many they are where reading gives that record: where they are read as it again. Else it is refused
// under 12.
fn write_if_read(job: Job, bytes: &mut [u8]) -> Result<usize, Refusal>
    requires { 579 ≤ length bytes.old }
    ensures answer { result ≡ cond (is_read job) (Ok (length (bytes_of job))) (Err (refusal_of 12 0)) }
    ensures bytes { bytes.new ≡ bytes_of job ++ drop (length (bytes_of job)) bytes.old }
{
    let n = writer::write(job, bytes);
    match reader::read(&bytes[..n]) {
        Ok(again) if job == again => Ok(n),
        _ => Err(Refusal {
            fault: Fault::NeverRead,
            at: 0,
        }),
    }
}

// Writes a job's bytes, whole or not at all, and says how many they are.
pub fn write(job: Job, out: &mut [u8]) -> Result<usize, Refusal>
    ensures answer { result ≡ written_of job (length out.old) }
    ensures bytes { out.new ≡ lent_after job out.old }
{
    let mut bytes = [0u8; writer::MAX_JOB_BYTES];
    let n = write_if_read(job, &mut bytes)?;
    if out.len() < n {
        return Err(Refusal {
            fault: Fault::TooFewBytes,
            at: 0,
        });
    }
    out[..n].copy_from_slice(&bytes[..n]);
    Ok(n)
}

// Decides whether the extract determines the query. Only the two databases of kinds 1 to 4 are free.
pub fn decide(job: Job) -> Result<Verdict, Refusal>
    ensures kind { kind_in result ≡ decision_of job }
    ensures listing { IfOk result (λ v. map number_of_held v.listing ≡ listing_record job.declared job.extract job.query) }
    ensures databases { IfOk result (λ v. HandsOut job.declared job.extract job.query v.databases.first v.databases.second) }
{
    write_if_read(job, &mut [0u8; writer::MAX_JOB_BYTES])?;
    Ok(verdict::decide(job.declared, job.extract, job.query))
}
