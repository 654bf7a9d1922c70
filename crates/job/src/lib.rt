// A job as a record of fixed size, passed by value. specs/Meaning.antt says which job of document 01 a record stands for. Lists are arrays
// with a count beside, since nothing is allocated; a record that is lent may have any count.
#![tactic(auto)]

ghost use Rattle.std.specs.Prelude.{◌≡◌, take};
ghost use Rattle.job.specs.Record.{no_job};

use model::Bounds;

// A column: its table, and its bounds.
#[derive(Clone, Copy, PartialEq, Eq, Default)]
pub struct Column {
    pub table: u8,
    pub bounds: Bounds,
}

// A comparison by an op. Right is 0 where the left column is compared with the number, else one more than the column that it is compared
// with. The op is a number and no `Op`, and the right side is no Option, since a record that is lent may have any bytes: what reading never
// gives is refused.
#[derive(Clone, Copy, PartialEq, Eq, Default)]
pub struct Comparison {
    pub op: u8,
    pub left: u8,
    pub right: u8,
    pub number: i32,
}

// The first `count` of a list, or all of it where there are no more.
fn first<T>(list: &[T], count: usize) -> &[T]
    ensures { result.now ≡ take count list.now }
{
    &list[..count.min(list.len())]
}

// The first `size` of the comparisons.
#[derive(Clone, Copy, PartialEq, Eq, Default)]
pub struct Clause {
    pub size: usize,
    pub comparisons: [Comparison; Job::COMPARISONS],
}

impl Clause {
    pub fn comparisons(&self) -> &[Comparison]
        ensures { result.now ≡ take self.now.size self.now.comparisons }
    {
        first(&self.comparisons, self.size)
    }
}

// The first `size` of the clauses.
#[derive(Clone, Copy, PartialEq, Eq, Default)]
pub struct Condition {
    pub size: usize,
    pub clauses: [Clause; Job::CLAUSES],
}

impl Condition {
    pub fn clauses(&self) -> &[Clause]
        ensures { result.now ≡ take self.now.size self.now.clauses }
    {
        first(&self.clauses, self.size)
    }
}

// The first `tables` of the used tables, the first `width` of the output columns, and the condition.
#[derive(Clone, Copy, PartialEq, Eq, Default)]
pub struct Expression {
    pub tables: usize,
    pub used: [u8; Job::TABLES],
    pub width: usize,
    pub outputs: [u8; Job::COLUMNS],
    pub condition: Condition,
}

impl Expression {
    pub fn used_tables(&self) -> &[u8]
        ensures { result.now ≡ take self.now.tables self.now.used }
    {
        first(&self.used, self.tables)
    }

    pub fn output_columns(&self) -> &[u8]
        ensures { result.now ≡ take self.now.width self.now.outputs }
    {
        first(&self.outputs, self.width)
    }
}

// What is declared: the number of tables, and the first `width` of the columns. An extract and a query are decided over it, whatever
// record they were read into.
#[derive(Clone, Copy, PartialEq, Eq, Default)]
pub struct Columns {
    pub tables: usize,
    pub width: usize,
    pub columns: [Column; Job::COLUMNS],
}

impl Columns {
    pub fn columns(&self) -> &[Column]
        ensures { result.now ≡ take self.now.width self.now.columns }
    {
        first(&self.columns, self.width)
    }
}

// What is declared, and the two expressions.
#[derive(Clone, Copy, PartialEq, Eq, Default)]
pub struct Job {
    pub declared: Columns,
    pub extract: Expression,
    pub query: Expression,
}

impl Job {
    // At most so many tables and columns in a job, clauses in a condition, comparisons in a clause.
    pub const TABLES: usize = 4;

    pub const COLUMNS: usize = 16;

    pub const CLAUSES: usize = 4;

    pub const COMPARISONS: usize = 6;

    // No bound of a column, and no number that a column is compared with, is below or above these.
    pub const LOWEST: i32 = -1_000_000;

    pub const HIGHEST: i32 = 1_000_000;

    // Zeros throughout: what reading begins with.
    pub fn empty() -> Self
        ensures { result ≡ no_job }
    {
        Self::default()
    }
}
