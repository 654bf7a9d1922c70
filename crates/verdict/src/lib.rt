// What follows from declared columns, an extract and a query before any data: the kind, the listing and the two databases.
#![tactic(auto)]

ghost use Rattle.std.specs.Prelude.{◌≡◌};
ghost use Rattle.base.specs.Lists.{at};
ghost use Rattle.model.specs.Answers.{number_of_kind};
ghost use Rattle.job.specs.Meaning.{condition_of};
ghost use Rattle.conditions.specs.Meeting.{Lies};
ghost use Rattle.twins.specs.Pairs.{some_apart};
ghost use Rattle.verdict.specs.Found.{one_kind, one_found, two_kind, two_found};
ghost use Rattle.verdict.specs.Verdict.{IsVerdict};
ghost use Rattle.verdict.specs.Uses.{FindsOne, FindsTwo, Given, DecidesSized};

use breaking::Choices;
use databases::Pair;
use job::{Columns, Condition, Expression, Job};
use model::{Held, Kind};
use search::Scratch;
use twins::TwinRows;
use zone::Zone;

// The entries of a zone of few columns: node 0 and up to six others, or up to twelve.
const SMALLEST: usize = 7 * zone::WIDTH;

const SMALL: usize = 13 * zone::WIDTH;

// ---- The kind

// Kind 1 or 2, and the rows of a zone that show it, or 0; `differ` says whether the used tables differ. An Option of the kind would say
// twice that none is shown, since it is 0 then. The choices are lent beside the scratch and filled in place, once for each search.
fn find_one<const N: usize>(
    z: &Zone<N>,
    differ: bool,
    keeps: &Condition,
    wants: &Condition,
    choices: &mut Choices,
    on_way: &mut Scratch<N>,
    out: &mut Zone<N>,
) -> Kind
    requires { FindsOne z.now keeps.now wants.now }
    ensures kind { number_of_kind result ≡ one_kind z.now differ (condition_of keeps.now) (condition_of wants.now) }
    ensures zone { Lies (one_found z.now differ (condition_of keeps.now) (condition_of wants.now)) out.new }
{
    if differ && conditions::met(z, wants, out) {
        return Kind::TablesDiffer;
    }
    let always = conditions::always();
    breaking::put_choices(keeps, choices);
    if search::outside(z, &always, wants, &*choices, on_way, out) {
        return Kind::RowNotKept;
    }
    Kind::Computable
}

// Kind 3 or 4, and two rows as one of a zone that show it, or 0. Kind 2 has been ruled out: a row that the query wants is one that the
// extract keeps, so it is asked of the second row alone. Other rows are sought than in `find_one`, and only the search is shared; a kind is
// given as there.
fn find_two<const N: usize>(
    z: &Zone<N>,
    rows: &TwinRows,
    keeps: &Condition,
    wants: &Condition,
    others: &Condition,
    cs: &[u8],
    choices: &mut Choices,
    on_way: &mut Scratch<N>,
    out: &mut Zone<N>,
) -> Kind
    requires { FindsTwo z.now rows.now keeps.now wants.now others.now cs.now }
    ensures kind { number_of_kind result ≡ two_kind z.now (condition_of keeps.now) (condition_of wants.now) (condition_of others.now)
        (some_apart (at rows.now.twin) cs.now) }
    ensures zone { Lies (two_found z.now (condition_of keeps.now) (condition_of wants.now) (condition_of others.now)
        (some_apart (at rows.now.twin) cs.now)) out.new }
{
    breaking::put_choices(others, choices);
    if search::outside(z, keeps, wants, &*choices, on_way, out) {
        return Kind::ConditionHidden;
    }
    if rows.differ(z, wants, others, cs, &mut on_way.first, out) {
        return Kind::OutputHidden;
    }
    Kind::Computable
}

// ---- The verdict

// The kind, the listing, and the two databases. Those of kind 0 are no Option's None: document 01 has two without rows there.
#[derive(Clone, Copy)]
pub struct Verdict {
    pub kind: Kind,
    pub listing: [Held; Job::COLUMNS],
    pub databases: Pair,
}

// Decides in zones of so many entries. Columns, extract and query stay three, as in a job's record: a contract names one or two of them as
// often as all.
fn decide_sized<const N: usize>(
    k: Columns,
    extract: Expression,
    query: Expression,
    rows: &TwinRows,
) -> Verdict
    requires { DecidesSized k extract query rows.now N }
    ensures { IsVerdict k extract query result }
{
    let mut z: Zone<N> = Zone::new();
    let mut on_way: Scratch<N> = Scratch::new();
    let mut out: Zone<N> = Zone::new();
    let mut choices = Choices::default();
    let keeps = &extract.condition;
    let wants = &query.condition;
    let keeps_other = rows.rename(extract.condition);
    let differ = databases::tables_differ(&extract, &query);
    solver::set_bounds(&mut z, &rows.bounds[..k.width]);
    let mut kind = find_one(
        &z,
        differ,
        keeps,
        wants,
        &mut choices,
        &mut on_way,
        &mut out,
    );
    solver::set_bounds(&mut z, &rows.bounds[..rows.columns]);
    if kind == Kind::Computable {
        let wants_other = rows.rename(query.condition);
        let cs = query.output_columns();
        kind = find_two(
            &z,
            rows,
            &keeps_other,
            wants,
            &wants_other,
            cs,
            &mut choices,
            &mut on_way,
            &mut out,
        );
    }
    let pair = databases::pair_of(&k, &extract, &query, rows, kind, &out);
    let mut marks = [false; Job::COLUMNS];
    rows.mark_pairs(
        &z,
        keeps,
        &keeps_other,
        &mut on_way.first,
        &mut on_way.pair,
        &mut marks[..k.width],
    );
    Verdict {
        kind,
        listing: databases::listing_of(&k, &extract, marks),
        databases: pair,
    }
}

pub fn decide(k: Columns, extract: Expression, query: Expression) -> Verdict
    requires { Given k extract query }
    ensures { IsVerdict k extract query result }
{
    let rows = TwinRows::of(&k, extract.output_columns());
    // With few columns in two rows as one, as nearly always, the zones are small, since to zero them would take longer than all the rest.
    if rows.columns < 7 {
        return decide_sized::<SMALLEST>(k, extract, query, &rows);
    }
    if rows.columns < 13 {
        return decide_sized::<SMALL>(k, extract, query, &rows);
    }
    decide_sized::<{ zone::SIZE }>(k, extract, query, &rows)
}
