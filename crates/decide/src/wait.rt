// How long a call is tried again that can't be done just now.
ghost use Rattle.std.specs.Prelude.{◌≡◌, ◌≢◌, ◌<◌, ◌-◌, Some, None, IfSome};

use std::io::ErrorKind;
use std::thread;
use std::time::{Clock, Duration};

// How long a stream is waited for in all, and between two tries, in nanoseconds.
pub const TIMEOUT: u64 = 5_000_000_000;

const PAUSE: u64 = 10_000_000;

// What is left of the time after a call that failed just now, for this reason; nothing where it isn't to be tried again. A
// call that would have blocked is tried again after a pause. One that a signal interrupted is tried again at once, which
// counts for a nanosecond, so that a loop of tries ends.
pub fn again(clock: &impl Clock, reason: ErrorKind, left: u64) -> Option<u64>
    ensures less { IfSome result (λ n. n < left) }
    ensures interrupted { PAUSE < left → reason ≡ ErrorKind.Interrupted → result ≡ Some (left - 1) }
    ensures blocked { PAUSE < left → reason ≡ ErrorKind.WouldBlock → result ≡ Some (left - PAUSE) }
    ensures failed { reason ≢ ErrorKind.Interrupted → reason ≢ ErrorKind.WouldBlock → result ≡ None }
{
    if left <= PAUSE {
        return None;
    }
    match reason {
        ErrorKind::Interrupted => Some(left - 1),
        ErrorKind::WouldBlock => {
            pause(clock);
            Some(left - PAUSE)
        }
        _ => None,
    }
}

// A signal doesn't shorten it.
fn pause(clock: &impl Clock) {
    thread::sleep(clock, Duration::from_nanos(PAUSE));
}
