// What stops the program, and what standard error is told of it.
use arrayvec::ArrayString;
use std::fmt::Write;
use std::io;

// Which stream failed, and why.
#[derive(Clone, Copy)]
pub enum Failure {
    Input(io::Error),
    Output(io::Error),
}

// Room for the longest message of the C library, and the number behind it.
const ROOM: usize = 300;

// The text of an error, without its number.
fn words(text: &str) -> &str {
    match text.split_once(" (os error ") {
        Some((words, _number)) => words,
        None => text,
    }
}

// One line: the stream, and why it failed, in the C library's words. The library prints an error with its number behind, and has no text
// without it, so that text is taken first.
fn put_line(rt: &impl Eprint, stream: &str, error: io::Error) {
    let mut text = ArrayString::<ROOM>::new();
    let _ = write!(text, "{error}");
    let reason = words(text.as_str());
    let _ = eprintln!(rt; "{stream}: {reason}");
}

pub fn tell(rt: &impl Eprint, failure: Failure) {
    match failure {
        Failure::Input(error) => put_line(rt, "standard input", error),
        Failure::Output(error) => put_line(rt, "standard output", error),
    }
}
