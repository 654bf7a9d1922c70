// The ways in which the clauses of a condition are broken, and the rows of a zone that break one, with looks ahead at clauses that are
// still to be broken.
#![tactic(auto)]

ghost use Rattle.std.specs.Prelude.{◌≡◌, [], ◌∷◌, ◌+◌, ◌<◌, ◌≤◌, length};
ghost use Rattle.base.specs.Lists.{all_of};
ghost use Rattle.job.specs.Meaning.{clause_of, condition_of};
ghost use Rattle.zone.specs.Zone.{allows, tightened};
ghost use Rattle.zone.specs.Uses.{Follows};
ghost use Rattle.conditions.specs.Meeting.{Ends};
ghost use Rattle.conditions.specs.Uses.{Small};
ghost use Rattle.breaking.specs.Breaking.{with_way, ways_of, choices_of, breakable, chosen};
ghost use Rattle.breaking.specs.Places.{ways_in, clause_ways, choices_in, in_order};
ghost use Rattle.breaking.specs.Uses.{FewWays, LooksAfter, LooksAhead, Chooses};

use job::{Clause, Condition, Job};
use zone::{Constraint, Zone};

// The ways in which one clause is broken, the first `count` of a list: a row breaks it where it obeys one of these constraints. A
// comparison fails in two ways at most. Here and in `Choices` a count stands beside an array, since memory is fixed.
#[derive(Clone, Copy, Default)]
pub struct Ways {
    pub count: usize,
    pub list: [Constraint; 2 * Job::COMPARISONS],
}

// How many clauses a condition has, and the ways of each. Past the last clause stands one that every row breaks, so that there are always
// four.
#[derive(Clone, Copy, Default)]
pub struct Choices {
    pub clauses: usize,
    pub ways: [Ways; Job::CLAUSES],
}

// ---- The ways in which clauses are broken

// A constraint that every row obeys.
const FREE: Constraint = Constraint {
    left: 0,
    right: 0,
    most: zone::LEVEL,
};

impl Ways {
    // Those that count. No more count than the array holds, whatever the count says.
    pub fn as_slice(&self) -> &[Constraint]
        ensures { result.now ≡ ways_in self.now }
    {
        &self.list[..self.count.min(2 * Job::COMPARISONS)]
    }

    // Adds a way, unless it is one of them.
    fn put(&mut self, c: Constraint)
        requires { self.old.count < 12 }
        ensures ways { ways_in self.new ≡ with_way (ways_in self.old) c }
        ensures few { self.new.count ≤ self.old.count + 1 }
    {
        if !self.as_slice().contains(&c) {
            self.list[self.count] = c;
            self.count += 1;
        }
    }

    // The ways in which a clause is broken, in place of others.
    fn set(&mut self, c: &Clause)
        requires { c.now.size ≤ 6 }
        ensures ways { ways_in self.new ≡ ways_of (clause_of c.now) }
        ensures few { self.new.count ≤ 12 }
    {
        self.count = 0;
        for k in c.comparisons() {
            let p = solver::negations(*k);
            self.put(p.first);
            if let Some(second) = p.second {
                self.put(second);
            }
        }
    }
}

// Puts the ways in which the clauses of a condition are broken in place of others.
pub fn put_choices(k: &Condition, choices: &mut Choices)
    requires { Small k.now }
    ensures ways { choices_in choices.new ≡ choices_of (condition_of k.now) }
    ensures clauses { choices.new.clauses ≡ k.now.size }
    ensures size { choices.new.clauses ≡ length (condition_of k.now) }
    ensures few { FewWays choices.new }
{
    // as a slice, whose length is known
    let clauses: &[Clause] = &k.clauses;
    choices.clauses = k.size;
    for (q, ways) in choices.ways.iter_mut().enumerate() {
        if q < k.size {
            ways.set(&clauses[q]);
        } else {
            ways.count = 0;
            ways.put(FREE);
        }
    }
}

// ---- Looks ahead

// Whether some row of the zone breaks a clause, once a constraint more is obeyed.
fn breakable_after<const N: usize>(z: &Zone<N>, c: Constraint, ways: &[Constraint]) -> bool
    requires { LooksAfter z.now c ways.now }
    ensures { result ≡ breakable (tightened z.now c) ways.now }
{
    ways.iter().any(
        |e| -> bool
            requires { Follows z.now c e.now }
            ensures { result ≡ allows (tightened z.entry.now c) e.now }
        { z.allows_after(c, *e) },
    )
}

// Looks ahead: whether each clause that is still to be broken could then be broken.
fn open_after<const N: usize>(z: &Zone<N>, c: Constraint, k: &Choices, rest: &[usize]) -> bool
    requires { LooksAhead z.now c k.now rest.now }
    ensures { result ≡ all_of (breakable (tightened z.now c)) (in_order rest.now (choices_in k.now)) }
{
    rest.iter().all(
        |q| -> bool
            requires { LooksAhead z.now c k.now (q.now ∷ []) }
            ensures { result ≡ breakable (tightened z.entry.now c) (ways_in (clause_ways k.entry.now q.now)) }
        { breakable_after(z, c, k.ways[*q].as_slice()) },
    )
}

// Lays the rows of a zone that obey the constraint too into another, which is lent, unless there are none, or some clause that is still to
// be broken can't be broken then. Nothing is copied before that is known; whether any are laid is the answer, as in crate conditions.
pub fn choose<const N: usize>(
    z: &Zone<N>,
    to: &mut Zone<N>,
    c: Constraint,
    k: &Choices,
    rest: &[usize],
) -> bool
    requires { Chooses z.now c k.now rest.now }
    ensures { Ends (chosen z.now c (in_order rest.now (choices_in k.now))) result to.new }
{
    if !z.allows(c) || !open_after(z, c, k, rest) {
        return false;
    }
    to.copy_from(z);
    to.constrain(c);
    true
}
