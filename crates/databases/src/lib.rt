// Databases of at most one row in each table, made of the rows that show a kind, and the listing of columns.
#![tactic(auto)]

ghost use Rattle.std.specs.Prelude.{◌≡◌, ◌&&◌, ◌||◌, ◌<◌, ◌≤◌, map, pos};
ghost use Rattle.base.specs.Arrays.{padded};
ghost use Rattle.model.specs.Tables.{uses};
ghost use Rattle.model.specs.Verdict.{uses_other};
ghost use Rattle.model.specs.Answers.{number_of_kind, number_of_held};
ghost use Rattle.job.specs.Meaning.{expression_of};
ghost use Rattle.databases.specs.Databases.{no_database, database_record, present_in, row_record, reduced_record};
ghost use Rattle.databases.specs.Databases.{least_in, one_pair, two_pair, pair_record};
ghost use Rattle.databases.specs.Listing.{listed_at, listed_by};
ghost use Rattle.databases.specs.Uses.{TablesFew, HasLeast, PairsOne, PairsTwo, PairsBy};

use job::{Columns, Expression, Job};
use model::{Held, Kind};
use twins::TwinRows;
use zone::Zone;

// At most one row in each table: in which tables there is one, and the values of its columns. The values stand by column, as in a row; an
// Option for each table would take them apart, and tables have no size of their own.
#[derive(Clone, Copy, Default)]
pub struct Database {
    pub present: [bool; Job::TABLES],
    pub values: [i32; Job::COLUMNS],
}

// Two databases.
#[derive(Clone, Copy)]
pub struct Pair {
    pub first: Database,
    pub second: Database,
}

// ---- Tables

fn uses(e: &Expression, t: u8) -> bool
    ensures { result ≡ uses (expression_of e.now) t }
{
    e.used_tables().contains(&t)
}

// Whether an expression uses a table that another doesn't.
fn uses_other(e: &Expression, f: &Expression) -> bool
    ensures { result ≡ uses_other (expression_of e.now) (expression_of f.now) }
{
    e.used_tables().iter().any(|t| !uses(f, *t))
}

// Whether two expressions use different tables.
pub fn tables_differ(e: &Expression, f: &Expression) -> bool
    ensures { result ≡ (uses_other (expression_of e.now) (expression_of f.now) || uses_other (expression_of f.now) (expression_of e.now)) }
{
    uses_other(e, f) || uses_other(f, e)
}

// ---- Databases

fn both_use(e: &Expression, f: &Expression, t: u8) -> bool
    ensures { result ≡ (uses (expression_of e.now) t && uses (expression_of f.now) t) }
{
    uses(e, t) && uses(f, t)
}

// The tables that both expressions use. A table or a column is below 4 or 16 wherever it becomes a byte here: no conversion could fail.
fn present(e: &Expression, f: &Expression) -> [bool; Job::TABLES]
    ensures { result ≡ present_in (expression_of e.now) (expression_of f.now) }
{
    let mut present = [false; Job::TABLES];
    for (t, both) in present.iter_mut().enumerate() {
        *both = both_use(e, f, t as u8);
    }
    present
}

// A row's values in the tables that are present. Here and below `TablesFew` is no type's: a lent record may name any table, and it is
// judged before. And columns, extract and query stay three, since contracts name one or two of them as often as all.
fn database_of(k: &Columns, present: [bool; Job::TABLES], row: [i32; Job::COLUMNS]) -> Database
    requires { TablesFew k.now }
    ensures { result ≡ database_record k.now present row }
{
    let mut values = [0i32; Job::COLUMNS];
    for (c, value) in values[..k.width].iter_mut().enumerate() {
        *value = if present[usize::from(k.columns[c].table)] {
            row[c]
        } else {
            0
        };
    }
    Database { present, values }
}

pub fn no_database() -> Database
    ensures { result ≡ no_database }
{
    Database::default()
}

// A row in each table that the query uses.
fn row_database(k: &Columns, query: &Expression, row: [i32; Job::COLUMNS]) -> Database
    requires { TablesFew k.now }
    ensures { result ≡ row_record k.now query.now row }
{
    database_of(k, present(query, query), row)
}

// Where the query uses a table that the extract doesn't, the same without such tables; otherwise no row at all.
fn reduced_database(
    k: &Columns,
    extract: &Expression,
    query: &Expression,
    row: [i32; Job::COLUMNS],
) -> Database
    requires { TablesFew k.now }
    ensures { result ≡ reduced_record k.now extract.now query.now row }
{
    if !uses_other(query, extract) {
        return no_database();
    }
    database_of(k, present(query, extract), row)
}

// ---- The two databases

// The least row of a zone, with zeros behind.
fn least_of<const N: usize>(z: &Zone<N>) -> [i32; twins::COLUMNS]
    requires { HasLeast z.now }
    ensures { result ≡ padded 32 (pos 0) (least_in z.now) }
{
    let n = z.nodes() - 1;
    let mut least = [0i32; twins::COLUMNS];
    solver::read_least(z, &mut least[..n]);
    least
}

// Of the least row: the row, and what is left of it without other tables, or none. The two kinds share the row, and so this function.
fn one_row_pair<const N: usize>(
    k: &Columns,
    extract: &Expression,
    query: &Expression,
    kind: Kind,
    z: &Zone<N>,
) -> Pair
    requires { PairsOne k.now z.now }
    ensures { result ≡ one_pair k.now extract.now query.now (number_of_kind kind) (least_in z.now) }
{
    let row = twins::first_row(least_of(z), k.width);
    let first = row_database(k, query, row);
    let second = match kind {
        Kind::TablesDiffer => reduced_database(k, extract, query, row),
        _ => no_database(),
    };
    Pair { first, second }
}

// Of the least row of two as one: the two rows.
fn two_row_pair<const N: usize>(
    k: &Columns,
    query: &Expression,
    rows: &TwinRows,
    z: &Zone<N>,
) -> Pair
    requires { PairsTwo k.now rows.now.twin z.now }
    ensures { result ≡ two_pair k.now query.now rows.now.twin (least_in z.now) }
{
    let least = least_of(z);
    let one = twins::first_row(least, k.width);
    let other = rows.second_row(least, k.width);
    Pair {
        first: row_database(k, query, one),
        second: row_database(k, query, other),
    }
}

// Of a kind, and the zone that was found for it: with kind 0, which has none, z isn't looked at.
pub fn pair_of<const N: usize>(
    k: &Columns,
    extract: &Expression,
    query: &Expression,
    rows: &TwinRows,
    kind: Kind,
    z: &Zone<N>,
) -> Pair
    requires { PairsBy k.now rows.now.twin (number_of_kind kind) z.now }
    ensures { result ≡ pair_record k.now extract.now query.now rows.now.twin (number_of_kind kind) (least_in z.now) }
{
    match kind {
        Kind::Computable => Pair {
            first: no_database(),
            second: no_database(),
        },
        Kind::TablesDiffer | Kind::RowNotKept => one_row_pair(k, extract, query, kind, z),
        Kind::ConditionHidden | Kind::OutputHidden => two_row_pair(k, query, rows, z),
    }
}

// ---- The listing

fn listed(k: &Columns, extract: &Expression, marks: [bool; Job::COLUMNS], c: usize) -> Held
    requires { (k.now.width ≤ 16) × (c < 16) }
    ensures { number_of_held result ≡ listed_at k.now extract.now marks c }
{
    if !uses(extract, k.columns[c].table) {
        Held::NotUsed
    } else if extract.output_columns().contains(&(c as u8)) {
        Held::Stored
    } else if marks[c] {
        Held::Open
    } else {
        Held::Fixed
    }
}

// How the extract holds each column. The marks are on those that aren't fixed.
pub fn listing_of(
    k: &Columns,
    extract: &Expression,
    marks: [bool; Job::COLUMNS],
) -> [Held; Job::COLUMNS]
    requires { k.now.width ≤ 16 }
    ensures { map number_of_held result ≡ listed_by k.now extract.now marks }
{
    let mut listing = [Held::NotUsed; Job::COLUMNS];
    for (c, held) in listing[..k.width].iter_mut().enumerate() {
        *held = listed(k, extract, marks, c);
    }
    listing
}
