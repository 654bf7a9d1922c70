// Lists of comparisons as bytes, and their answers; specs/Form.antt says what stands where.
#![tactic(auto)]

ghost use Rattle.std.specs.Prelude.{◌≡◌, cond, ◌∷◌, ◌+◌, ◌*◌, ◌≤◌, length};
ghost use Rattle.base.specs.Lists.{flat_map};
ghost use Rattle.words.specs.Word.{encoded};
ghost use Rattle.solver.specs.Lists.{row_or_zeros};
ghost use Rattle.listform.specs.Form.{
  first_bounds,
  first_comparison,
  bounds_in,
  comparisons_in,
  in_order,
  among,
  fitting,
  is_list,
  least,
  number_of_found,
  count_of,
  found_in,
  written,
};
ghost use Rattle.listform.specs.Uses.{Rooms, SolveRooms, Room};

use job::Comparison;
use model::Bounds;

// The most columns and comparisons of a list, the bytes that these take, and those of an answer.
pub const COLUMNS: usize = 32;

pub const COMPARISONS: usize = 255;

pub const LIST: usize = 2041;

pub const ANSWER: usize = 129;

// What is found of the bytes of a list. Its number is the first byte of an answer.
#[derive(Clone, Copy)]
pub enum Found {
    // No row meets the list.
    Unmet,
    // Some row meets it.
    Met,
    // The bytes are no list.
    NoList,
}

impl Found {
    // How many bytes the answer to a list of n columns has: of what is no list the first alone.
    pub fn count(self, n: usize) -> usize
        requires { n ≤ 32 }
        ensures { result ≡ count_of self n }
    {
        match self {
            Found::NoList => 1,
            Found::Unmet | Found::Met => n * 4 + 1,
        }
    }
}

impl From<Found> for u8 {
    ghost from_gives = { λ found n. n ≡ number_of_found found };

    fn from(found: Found) -> u8 {
        found as u8
    }
}

// The bounds in the first bytes.
fn first_bounds(s: &[u8]) -> Bounds
    requires { 8 ≤ length s.now }
    ensures { result ≡ first_bounds s.now }
{
    Bounds {
        lo: words::read(s, 0),
        hi: words::read(s, 4),
    }
}

// The comparison in the first bytes.
fn first_comparison(s: &[u8]) -> Comparison
    requires { 7 ≤ length s.now }
    ensures { result ≡ first_comparison s.now }
{
    Comparison {
        op: s[0],
        left: s[1],
        right: s[2],
        number: words::read(s, 3),
    }
}

// Reads the bounds and the comparisons of a list; the slices are as long as it has columns and comparisons. They are two here and below, as
// what is read and what is solved has them: one struct would lend them to be written, and another to be read.
fn decode(s: &[u8], bounds: &mut [Bounds], list: &mut [Comparison])
    requires { Rooms s.now bounds.old list.old }
    ensures bounds { bounds.new ≡ bounds_in (length bounds.old) s.now }
    ensures list { list.new ≡ comparisons_in (length bounds.old) (length list.old) s.now }
{
    let behind = &s[bounds.len() * 8..];
    for (i, b) in bounds.iter_mut().enumerate() {
        *b = first_bounds(&s[i * 8..]);
    }
    for (i, k) in list.iter_mut().enumerate() {
        *k = first_comparison(&behind[i * 7..]);
    }
}

// Whether each lo is at most its hi.
fn in_order(bounds: &[Bounds]) -> bool
    ensures { result ≡ in_order bounds.now }
{
    bounds.iter().all(|b| b.lo <= b.hi)
}

// Whether each op is one, and each column is among n.
fn among(n: usize, list: &[Comparison]) -> bool
    requires { n ≤ 32 }
    ensures { result ≡ among n list.now }
{
    list.iter().all(|k| words::is_op(k.op) && usize::from(k.left) < n && usize::from(k.right) <= n)
}

// Whether these are bounds and comparisons of a list.
fn fitting(bounds: &[Bounds], list: &[Comparison]) -> bool
    requires { length bounds.now ≤ 32 }
    ensures { result ≡ fitting bounds.now list.now }
{
    in_order(bounds) && among(bounds.len(), list)
}

// Reads a list and solves it. The slices are as for `decode`; the row stays as it is where the bytes are no list.
fn solve(s: &[u8], bounds: &mut [Bounds], list: &mut [Comparison], row: &mut [i32]) -> Found
    requires { SolveRooms s.now bounds.old list.old row.old }
    ensures found { result ≡ found_in (length bounds.old) (length list.old) s.now }
    ensures row { row.new ≡ cond (is_list (length bounds.old) (length list.old) s.now)
        (row_or_zeros (length bounds.old) (least (length bounds.old) (length list.old) s.now)) row.old }
{
    decode(s, bounds, list);
    if !fitting(bounds, list) {
        return Found::NoList;
    }
    if solver::least_row(bounds, list, row) {
        Found::Met
    } else {
        Found::Unmet
    }
}

// The number of what was found and the values of a row.
fn put(found: Found, row: &[i32], out: &mut [u8])
    requires { length out.old ≡ length row.now * 4 + 1 }
    ensures { out.new ≡ number_of_found found ∷ flat_map row.now (encoded 4) }
{
    out[0] = u8::from(found);
    for (i, v) in row.iter().enumerate() {
        words::write(out, i * 4 + 1, *v);
    }
}

// Answers a list of n columns and m comparisons, and says what was found, which tells how many of the bytes are the answer. A caller has
// read n and m, which come first.
pub fn answer(n: usize, m: usize, s: &[u8], out: &mut [u8]) -> Found
    requires { Room n m s.now out.old }
    ensures found { result ≡ found_in n m s.now }
    ensures bytes { out.new ≡ written n m s.now }
{
    let mut bounds = [Bounds::default(); COLUMNS];
    let mut list = [Comparison::default(); COMPARISONS];
    let mut row = [0i32; COLUMNS];
    let found = solve(s, &mut bounds[..n], &mut list[..m], &mut row[..n]);
    put(found, &row[..n], out);
    found
}
