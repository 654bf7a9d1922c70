// Solves lists of comparisons: reads them from standard input, and writes an answer to each to standard output.
//
// A list is a byte n, the columns, from 1 to 32; a byte m, the comparisons; for each column lo and hi; and for each comparison a byte op,
// from 0 to 4, a byte left, a column, a byte right, and a number. Right is 0 where the column is compared with the number, else one more
// than the column that it is compared with. Lo, hi and number have four bytes, two's complement, low byte first, and no lo is above its
// hi.
//
// An answer is a byte 1 and the n values of the least row; or a byte 0 and n zeros, where no row meets the list. A byte 2 answers bytes
// that are no list, also where the input ends within one, and then nothing more is read.
#![tactic(auto)]

ghost use Rattle.std.specs.Prelude.{◌<◌};
ghost use Rattle.listform.specs.Uses.{Room};

use listform::Found;
use std::io::{Error, ErrorKind, Read, Result, Write};

// Answers bytes that are no list. No further list may follow, as the error says: these were none, or a call failed. It is called where a
// read failed, and by no closure, which would lend the output.
fn refuse(output: &mut impl Write) -> Error {
    match output.write_all(&[u8::from(Found::NoList)]) {
        Ok(()) => ErrorKind::InvalidData.into(),
        Err(e) => e,
    }
}

// Reads a list of n columns and m comparisons into s, which it fills, and answers it.
fn answer_list<R: Read, W: Write>(
    input: &mut R,
    output: &mut W,
    n: usize,
    m: usize,
    s: &mut [u8],
    out: &mut [u8],
) -> Result<()>
    requires { Room n m s.old out.old }
{
    if input.read_exact(s).is_err() {
        return Err(refuse(output));
    }
    let found = listform::answer(n, m, s, out);
    output.write_all(&out[..found.count(n)])?;
    match found {
        Found::NoList => Err(ErrorKind::InvalidData.into()),
        Found::Unmet | Found::Met => Ok(()),
    }
}

fn next_byte(input: &mut impl Read) -> Result<u8> {
    let mut byte = [0u8; 1];
    input.read_exact(&mut byte)?;
    Ok(byte[0])
}

fn next_list<R: Read, W: Write>(input: &mut R, output: &mut W) -> Result<()> {
    // The first byte is read alone: an input that ends before it ends between two lists, and within one after it.
    let n = usize::from(next_byte(input)?);
    let Ok(comparisons) = next_byte(input) else {
        return Err(refuse(output));
    };
    let m = usize::from(comparisons);
    if n == 0 || listform::COLUMNS < n {
        return Err(refuse(output));
    }
    let size = n * 8 + m * 7;
    let room = n * 4 + 1;
    let mut s = [0u8; listform::LIST];
    let mut out = [0u8; listform::ANSWER];
    answer_list(input, output, n, m, &mut s[..size], &mut out[..room])
}

fn main(rt: HostRuntime) {
    let mut input = rt.stdin();
    let mut output = rt.stdout();
    // A loop ends by a count; no input has so many lists.
    for _ in 0..u64::MAX {
        if next_list(&mut input, &mut output).is_err() {
            return;
        }
    }
}
