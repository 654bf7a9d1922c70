// What the deciding program prints for the bytes that it reads: a refusal, or a verdict.
#![tactic(auto)]

ghost use Rattle.std.specs.Prelude.{◌≡◌, ◌++◌, ◌+◌, ◌≤◌, map, length, drop};
ghost use Rattle.base.specs.Lists.{flat_map};
ghost use Rattle.base.specs.Bytes.{Room, Puts};
ghost use Rattle.model.specs.Answers.{number_of_kind, number_of_held};
ghost use Rattle.layout.specs.Faults.{number_of_fault};
ghost use Rattle.report.specs.Text.{digits, field, refusal_text, verdict_text};
ghost use Rattle.report.specs.Printed.{printed, record_text};

use base::Output;
use job::Job;
use layout::Refusal;
use model::{Held, Kind};

// Enough bytes for every text: a verdict would take as many if its kind and the listing of 16 columns had three digits each.
pub const MOST: usize = 81;

// A number in decimal, since std's printing says nothing of the bytes of a lent slice. Dividing gives its last digit first, so a call
// within puts those before it.
fn put_digits(out: &mut Output, n: usize)
    requires { Room out.old (digits n) }
    ensures { Puts out.old out.new (digits n) }
{
    if n >= 10 {
        put_digits(out, n / 10);
    }
    out.put(b'0' + (n % 10) as u8);
}

// A number behind a word, by hand as in `put_digits`.
fn put_field(out: &mut Output, word: &[u8], n: usize)
    requires { Room out.old (word.now ++ digits n) }
    ensures { Puts out.old out.new (word.now ++ digits n) }
{
    out.put_all(word);
    put_digits(out, n);
}

// The listing: a number for each column.
fn put_columns(out: &mut Output, columns: &[Held])
    requires { Room out.old (flat_map columns.now (λ h. field " " (number_of_held h))) }
    ensures { Puts out.old out.new (flat_map columns.now (λ h. field " " (number_of_held h))) }
{
    for c in columns {
        put_field(out, b" ", usize::from(u8::from(*c)));
    }
}

// The text of a refusal.
fn refusal(out: &mut Output, r: Refusal)
    requires { Room out.old (refusal_text (number_of_fault r.fault) r.at) }
    ensures { Puts out.old out.new (refusal_text (number_of_fault r.fault) r.at) }
{
    put_field(out, b"refused ", usize::from(u8::from(r.fault)));
    put_field(out, b" at ", r.at);
    out.put(b'\n');
}

// The text of a verdict.
fn verdict(out: &mut Output, kind: Kind, columns: &[Held])
    requires { Room out.old (verdict_text (number_of_kind kind) (map number_of_held columns.now)) }
    ensures { Puts out.old out.new (verdict_text (number_of_kind kind) (map number_of_held columns.now)) }
{
    put_field(out, b"kind ", usize::from(u8::from(kind)));
    out.put_all(b"\ncolumns");
    put_columns(out, columns);
    out.put(b'\n');
}

// The text of what is decided of a record.
fn decided(out: &mut Output, job: Job)
    requires { (Room out.old (record_text job)) × (job.declared.width ≤ 16) }
    ensures { Puts out.old out.new (record_text job) }
{
    let width = job.declared.width;
    match pobghine::decide(job) {
        Ok(v) => verdict(out, v.kind, &v.listing[..width]),
        Err(r) => refusal(out, r),
    }
}

// The text for any bytes, and how many bytes it has.
pub fn text(s: &[u8], out: &mut [u8]) -> usize
    requires { MOST ≤ length out.old }
    ensures count { result ≡ length (printed s.now) }
    ensures bytes { out.new ≡ printed s.now ++ drop (length (printed s.now)) out.old }
{
    let mut to = Output { bytes: out, at: 0 };
    match pobghine::read(s) {
        Ok(job) => decided(&mut to, job),
        Err(r) => refusal(&mut to, r),
    }
    to.at
}
