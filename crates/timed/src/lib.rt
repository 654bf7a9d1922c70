// The update of a zone, and reading and deciding a job, exported so that bench/ can time them beside C, in C's types: numbers and bools.
#![tactic(auto)]

ghost use Rattle.std.specs.Prelude.{◌≡◌};
ghost use Rattle.zone.specs.Zone.{allows, constrained, kept};
ghost use Rattle.zone.specs.Array.{zone_in, laid};
ghost use Rattle.zone.specs.Uses.{Constrains};
ghost use Rattle.timed.specs.Call.{passed, read_number, kind_number};

use zone::Constraint;

// `zone::constrain`, with the constraint in parts: a struct would be passed in memory.
#[unsafe(no_mangle)]
pub extern "C" fn timed_constrain(
    d: &mut [u64; zone::SIZE],
    n: usize,
    left: usize,
    right: usize,
    most: u64,
) -> bool
    requires { Constrains n d.old (passed left right most) }
    ensures answer { result ≡ allows (zone_in n d.old) (passed left right most) }
    ensures zone { d.new ≡ laid d.old (kept (zone_in n d.old) (constrained (zone_in n d.old) (passed left right most))) }
{
    zone::constrain(d, n, Constraint { left, right, most })
}

// Reads a job, and says 0, or 255 where it is refused.
#[unsafe(no_mangle)]
pub extern "C" fn timed_read(bytes: &[u8]) -> u8
    ensures { result ≡ read_number bytes.now }
{
    match pobghine::read(bytes) {
        Ok(_job) => 0,
        Err(_refusal) => 255,
    }
}

// Reads a job and decides it: the kind, or 255 where it is refused.
#[unsafe(no_mangle)]
pub extern "C" fn timed_decide(bytes: &[u8]) -> u8
    ensures { result ≡ kind_number bytes.now }
{
    let Ok(job) = pobghine::read(bytes) else {
        return 255;
    };
    match pobghine::decide(job) {
        Ok(v) => u8::from(v.kind),
        Err(_refusal) => 255,
    }
}
