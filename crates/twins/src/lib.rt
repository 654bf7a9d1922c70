// Two rows that agree in the stored columns, as one row: its columns and bounds, conditions said of either row, and searches over such
// rows, which leave what they find in a lent zone, as in crate conditions.
#![tactic(auto)]

ghost use Rattle.std.specs.Prelude.{◌≡◌, false, ◌||◌, [], map, suc, ◌+◌, ◌<◌, ◌≤◌, length, get_or, take, pos, eqb};
ghost use Rattle.std.specs.List.{list_all, range_with_len};
ghost use Rattle.base.specs.Lists.{at, tabulate};
ghost use Rattle.base.specs.Options.{is_some};
ghost use Rattle.base.specs.Arrays.{padded};
ghost use Rattle.model.specs.Tables.{value};
ghost use Rattle.job.specs.Meaning.{bounds_of, condition_of};
ghost use Rattle.zone.specs.Zone.{columns_of, can_differ};
ghost use Rattle.conditions.specs.Meeting.{pairs_of, Ends};
ghost use Rattle.twins.specs.Pairs.{some_apart, if_differ};
ghost use Rattle.twins.specs.Records.{twins_of, column_more, twins_record, renamed_one, renamed_clause, renamed_condition};
ghost use Rattle.twins.specs.Marks.{marked};
ghost use Rattle.twins.specs.Uses.{Few, RenamesOne, RenamesClause, Renames, TwinsStand, Paired, Partners, Differs, Marks};

use job::{Clause, Columns, Comparison, Condition, Job};
use model::Bounds;
use words::Op;
use zone::Zone;

// At most so many columns in two rows as one.
pub const COLUMNS: usize = 32;

// Two rows that agree in the stored columns, as one row: how many columns it has, where the second row's value of each column stands, and
// the bounds of its columns. The count stands beside arrays, since memory is fixed. Which columns there are is another value's, so that the
// twins stand among them is no invariant here; a column becomes a byte as it is, since none is above 31.
#[derive(Clone, Copy, Default)]
pub struct TwinRows {
    pub columns: usize,
    pub twin: [u8; Job::COLUMNS],
    pub bounds: [Bounds; COLUMNS],
}

// ---- Conditions with columns named anew

fn rename_comparison(k: Comparison, twin: &[u8; Job::COLUMNS]) -> Comparison
    requires { RenamesOne k twin.now }
    ensures { result ≡ renamed_one twin.now k }
{
    let left = twin[usize::from(k.left)];
    if k.right == 0 {
        return Comparison { left, ..k };
    }
    let right = twin[usize::from(k.right - 1)] + 1;
    Comparison { left, right, ..k }
}

// In each comparison of a clause, as `rename` does in each clause of a condition: one loop for both would be no shorter than the two.
fn rename_clause(c: Clause, twin: &[u8; Job::COLUMNS]) -> Clause
    requires { RenamesClause c twin.now }
    ensures { result ≡ renamed_clause twin.now c }
{
    let mut renamed = c;
    for k in &mut renamed.comparisons {
        *k = rename_comparison(*k, twin);
    }
    renamed
}

// The first row of two as one: its columns come first.
pub fn first_row(row: [i32; COLUMNS], n: usize) -> [i32; Job::COLUMNS]
    requires { n ≤ 16 }
    ensures { result ≡ padded 16 (pos 0) (take n row) }
{
    let mut first = [0i32; Job::COLUMNS];
    // no copy of a slice, as in `copy` of zone
    for c in 0..n {
        first[c] = row[c];
    }
    first
}

impl TwinRows {
    // One column more.
    fn add(&mut self, b: Bounds)
        requires { self.old.columns < 32 }
        ensures { self.new ≡ column_more self.old b }
    {
        self.bounds[self.columns] = b;
        self.columns += 1;
    }

    // The columns of the first row.
    fn first(k: &Columns) -> Self
        requires { k.now.width ≤ 16 }
        ensures { result ≡ twins_of (map bounds_of (take k.now.width k.now.columns)) [] }
    {
        let mut t = Self::default();
        for column in k.columns() {
            t.add(column.bounds);
        }
        t
    }

    // Two rows that agree in the stored columns. Where a column isn't stored, the second row has one column more.
    pub fn of(k: &Columns, stored: &[u8]) -> Self
        requires { k.now.width ≤ 16 }
        ensures { result ≡ twins_record (map bounds_of (take k.now.width k.now.columns)) stored.now }
    {
        let mut t = Self::first(k);
        for (c, column) in k.columns().iter().enumerate() {
            if stored.contains(&(c as u8)) {
                t.twin[c] = c as u8;
            } else {
                t.twin[c] = t.columns as u8;
                t.add(column.bounds);
            }
        }
        t
    }

    // The second row of two as one.
    pub fn second_row(&self, row: [i32; COLUMNS], n: usize) -> [i32; Job::COLUMNS]
        requires { TwinsStand self.now.twin n }
        ensures { result ≡ padded 16 (pos 0) (tabulate n (λ c. value row (at self.now.twin c))) }
    {
        let mut second = [0i32; Job::COLUMNS];
        for (c, value) in second[..n].iter_mut().enumerate() {
            *value = row[usize::from(self.twin[c])];
        }
        second
    }

    // A condition said of the second of two rows.
    pub fn rename(&self, k: Condition) -> Condition
        requires { Renames k self.now.twin }
        ensures { result ≡ renamed_condition self.now.twin k }
    {
        let mut renamed = k;
        for c in &mut renamed.clauses {
            *c = rename_clause(*c, &self.twin);
        }
        renamed
    }

    // ---- Rows with different values in a column and its twin

    // Keeps the rows in which some column of the list has another value than its twin; where there are none it says so.
    fn separate<const N: usize>(&self, z: &mut Zone<N>, cs: &[u8]) -> bool
        requires few { length z.old ≤ 33 }
        requires partners { Partners (columns_of z.old) cs.now self.now.twin }
        ensures { Ends (some_apart (at self.now.twin) cs.now z.old) result z.new }
    {
        for c in cs {
            let less = Comparison {
                op: u8::from(Op::Less),
                left: *c,
                right: self.twin[usize::from(*c)] + 1,
                number: 0,
            };
            let more = Comparison {
                op: u8::from(Op::More),
                ..less
            };
            if solver::impose(z, less) || solver::impose(z, more) {
                return true;
            }
        }
        false
    }

    // Whether each column of the list is its own twin, and so can't differ from it.
    fn all_shared(&self, cs: &[u8]) -> bool
        requires { Few cs.now }
        ensures { result ≡ list_all (λ c. eqb (at self.now.twin c) c) cs.now }
    {
        cs.iter().all(|c| self.twin[usize::from(*c)] == *c)
    }

    // Some rows of a zone that meet both conditions and are separated so, or none. Rows that meet a clause of the first are laid once for all
    // clauses of the second, here and in `mark_pairs`.
    pub fn differ<const N: usize>(
        &self,
        z: &Zone<N>,
        k: &Condition,
        l: &Condition,
        cs: &[u8],
        first: &mut Zone<N>,
        out: &mut Zone<N>,
    ) -> bool
        requires { Differs z.now k.now l.now cs.now self.now.twin }
        ensures { Ends (pairs_of z.now (condition_of k.now) (condition_of l.now) (some_apart (at self.now.twin) cs.now)) result out.new }
    {
        // a column doesn't differ from itself, since a zone is closed, as `nodes` tells
        let _ = z.nodes();
        if self.all_shared(cs) || l.clauses().is_empty() {
            return false;
        }
        for c in k.clauses() {
            if conditions::lay_clause(z, c, first) {
                for e in l.clauses() {
                    if conditions::lay_clause(&*first, e, out) && self.separate(out, cs) {
                        return true;
                    }
                }
            }
        }
        false
    }

    // Marks the columns whose values can differ from their twins'.
    fn mark<const N: usize>(&self, z: &Zone<N>, marks: &mut [bool])
        requires { Paired (columns_of z.now) (length marks.old) self.now.twin }
        ensures { marks.new ≡ marked (length marks.old) (λ c. can_differ z.now (suc c) (suc (at self.now.twin c))) marks.old }
    {
        for (c, mark) in marks.iter_mut().enumerate() {
            *mark |= z.can_differ(c + 1, usize::from(self.twin[c]) + 1);
        }
    }

    // Whether each of the first columns is marked, or is its own twin: then no more can be marked.
    fn all_marked(&self, marks: &[bool]) -> bool
        requires { length marks.now ≤ 16 }
        ensures { result ≡ list_all (λ c. get_or marks.now c false || eqb (at self.now.twin c) c) (range_with_len 0 (length marks.now)) }
    {
        (0..marks.len()).all(|c| marks[c] || usize::from(self.twin[c]) == c)
    }

    // Marks the columns, one for each mark, whose values can differ so in the rows that meet both conditions. Every pair of clauses may mark
    // a column, while `differ` ends with the first that gives a row: so each has its own loops.
    pub fn mark_pairs<const N: usize>(
        &self,
        z: &Zone<N>,
        k: &Condition,
        l: &Condition,
        first: &mut Zone<N>,
        pair: &mut Zone<N>,
        marks: &mut [bool],
    )
        requires { Marks z.now k.now l.now (length marks.old) self.now.twin }
        ensures { marks.new ≡ marked (length marks.old)
            (λ c. is_some (pairs_of z.now (condition_of k.now) (condition_of l.now) (if_differ c (at self.now.twin c)))) marks.old }
    {
        // a column doesn't differ from itself, since a zone is closed, as `nodes` tells
        let _ = z.nodes();
        if self.all_marked(&*marks) {
            return;
        }
        for c in k.clauses() {
            if conditions::lay_clause(z, c, first) {
                for e in l.clauses() {
                    if conditions::lay_clause(&*first, e, pair) {
                        self.mark(&*pair, marks);
                        if self.all_marked(&*marks) {
                            return;
                        }
                    }
                }
            }
        }
    }
}
