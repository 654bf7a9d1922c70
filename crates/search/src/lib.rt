// The search for a row that meets two conditions and breaks every clause of a third. What is found is laid into a lent zone, and the answer
// is whether anything is, as in crate conditions.
#![tactic(auto)]

ghost use Rattle.std.specs.Prelude.{◌≡◌, ◌<◌, ◌≤◌, length};
ghost use Rattle.base.specs.Lists.{filter};
ghost use Rattle.job.specs.Meaning.{condition_of};
ghost use Rattle.zone.specs.Zone.{point, allows};
ghost use Rattle.zone.specs.Uses.{Joins};
ghost use Rattle.conditions.specs.Meeting.{Ends};
ghost use Rattle.breaking.specs.Places.{choices_in};
ghost use Rattle.search.specs.Order.{weights, exchanged, order_by};
ghost use Rattle.search.specs.Search.{broken_by, outside};
ghost use Rattle.breaking.specs.Uses.{WaysFit};
ghost use Rattle.search.specs.Uses.{Order, Weighs, SearchesOutside};

use breaking::{Choices, choose};
use job::{Condition, Job};
use zone::{Constraint, Zone};

// What a clause past the last one weighs: more than any other, since a clause has twelve ways at most.
const HEAVIEST: usize = 13;

// ---- The order in which clauses are broken

// How many of some ways some row of the zone takes.
fn count_allowed<const N: usize>(z: &Zone<N>, ways: &[Constraint]) -> usize
    requires { WaysFit (length z.now) ways.now }
    ensures { result ≡ length (filter (allows z.now) ways.now) }
{
    ways.iter()
        .filter(
            |c| -> bool
                requires { Joins (length z.now) c.now.now }
                ensures { result ≡ allows z.entry.now c.now.now }
            { z.allows(**c) },
        )
        .count()
}

// What each clause weighs: as much as it has ways that some row takes. By places, as wherever elements are written in step with another
// list: in a zip a proof doesn't reach what the written ones become.
fn weigh<const N: usize>(z: &Zone<N>, k: &Choices) -> [usize; Job::CLAUSES]
    requires { Weighs (length z.now) k.now }
    ensures { result ≡ weights z.now k.now.clauses (choices_in k.now) }
{
    let mut weights = [HEAVIEST; Job::CLAUSES];
    for (q, weight) in weights[..k.clauses].iter_mut().enumerate() {
        *weight = count_allowed(z, k.ways[q].as_slice());
    }
    weights
}

// The clauses in places i and i + 1 exchanged, where the second weighs less.
fn exchange(
    order: [usize; Job::CLAUSES],
    weights: [usize; Job::CLAUSES],
    i: usize,
) -> [usize; Job::CLAUSES]
    requires { Order order × (i < 3) }
    ensures { result ≡ exchanged weights i order }
{
    let mut other = order;
    if weights[order[i + 1]] < weights[order[i]] {
        other.swap(i, i + 1);
    }
    other
}

// The lightest clause first: then a choice that leads nowhere shows early. The definition is these exchanges, and so clauses of one weight
// stay in order; the library's stable sort asks for a heap, and its other one would want a key of weight and number.
fn order_by(weights: [usize; Job::CLAUSES]) -> [usize; Job::CLAUSES]
    ensures { result ≡ order_by weights }
{
    let declared = [0usize, 1, 2, 3];
    let a = exchange(declared, weights, 0);
    let b = exchange(a, weights, 1);
    let c = exchange(b, weights, 2);
    let d = exchange(c, weights, 0);
    let e = exchange(d, weights, 1);
    exchange(e, weights, 0)
}

// ---- Rows that break every clause

// Zones that a search lays rows into on its way: those that meet the first clause of a pair, and of these those that meet the second one
// too, and of these those that break one clause, and two. What they hold afterwards is nobody's concern.
#[derive(Drop)]
pub struct Scratch<const N: usize> {
    pub first: Zone<N>,
    pub pair: Zone<N>,
    pub one: Zone<N>,
    pub two: Zone<N>,
}

impl<const N: usize> Scratch<N> {
    pub fn new() -> Self
        requires { 33 ≤ N }
        ensures { result ≡ record { first = point; pair = point; one = point; two = point } }
    {
        Self {
            first: Zone::new(),
            pair: Zone::new(),
            one: Zone::new(),
            two: Zone::new(),
        }
    }
}

// Some rows of a zone that break every clause, or none: by one way of each clause after the other. The ways of the last clause need no zone
// of their own, since no clause is left to look ahead at. The zones between are lent one by one, since x is another part of the same
// scratch.
fn broken<const N: usize>(
    x: &Zone<N>,
    k: &Choices,
    y: &mut Zone<N>,
    v: &mut Zone<N>,
    out: &mut Zone<N>,
) -> bool
    requires { Weighs (length x.now) k.now }
    ensures { Ends (broken_by x.now k.now.clauses (choices_in k.now)) result out.new }
{
    let order = order_by(weigh(x, k));
    let one = k.ways[order[0]].as_slice();
    let two = k.ways[order[1]].as_slice();
    let three = k.ways[order[2]].as_slice();
    let four = k.ways[order[3]].as_slice();
    let mut found = false;
    'one: for a in one {
        if choose(x, y, *a, k, &order[1..]) {
            'two: for b in two {
                if choose(&*y, v, *b, k, &order[2..]) {
                    'three: for c in three {
                        if choose(&*v, out, *c, k, &order[3..]) {
                            'four: for d in four {
                                if out.constrain(*d) {
                                    found = true;
                                    break 'one;
                                }
                            }
                        }
                    }
                }
            }
        }
    }
    found
}

// Some rows of a zone that meet both conditions and break every clause of another, or none. Rows that meet a clause of the first are laid
// once for all clauses of the second. Document 01 has labelled loops here, as in `broken`, and no function that takes what is done with a
// pair of clauses. The zone and the two conditions are no struct, here and in twins: each search has others of them, and its contract
// names each.
pub fn outside<const N: usize>(
    z: &Zone<N>,
    a: &Condition,
    b: &Condition,
    k: &Choices,
    on_way: &mut Scratch<N>,
    out: &mut Zone<N>,
) -> bool
    requires { SearchesOutside z.now a.now b.now k.now }
    ensures { Ends (outside z.now (condition_of a.now) (condition_of b.now) k.now.clauses (choices_in k.now)) result out.new }
{
    // no row meets a condition without clauses, so that nothing need be laid
    if b.clauses().is_empty() {
        return false;
    }
    let mut found = false;
    'first: for c in a.clauses() {
        if conditions::lay_clause(z, c, &mut on_way.first) {
            'second: for e in b.clauses() {
                if conditions::lay_clause(&on_way.first, e, &mut on_way.pair) {
                    if broken(&on_way.pair, k, &mut on_way.one, &mut on_way.two, out) {
                        found = true;
                        break 'first;
                    }
                }
            }
        }
    }
    found
}
