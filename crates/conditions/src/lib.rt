// Conditions and the rows of a zone: those that meet a clause, or a condition. They are laid into a lent zone, since one is too large to be
// handed back, and the answer is whether there are any. An Option of the lent zone can't be handed on by a caller that lends it again where
// there is none (rustc's E0499), and would lose what the zone is then.
#![tactic(auto)]

ghost use Rattle.std.specs.Prelude.{◌≡◌};
ghost use Rattle.base.specs.Options.{is_some};
ghost use Rattle.job.specs.Meaning.{clause_of, condition_of};
ghost use Rattle.zone.specs.Zone.{columns_of};
ghost use Rattle.solver.specs.Solver.{imposed_all};
ghost use Rattle.solver.specs.Lists.{reached};
ghost use Rattle.conditions.specs.Meeting.{always_record, met, Ends};
ghost use Rattle.conditions.specs.Uses.{ClauseFits, ConditionFits};

use job::{Clause, Condition};
use zone::Zone;

// Lays the rows of a zone that meet a clause into another; where there are none it says so, and stops at the comparison that leaves none.
pub fn lay_clause<const N: usize>(z: &Zone<N>, c: &Clause, to: &mut Zone<N>) -> bool
    requires { ClauseFits (columns_of z.now) c.now }
    ensures answer { result ≡ is_some (imposed_all z.now (clause_of c.now)) }
    ensures zone { to.new ≡ reached z.now (clause_of c.now) }
{
    to.copy_from(z);
    solver::impose_all(to, c.comparisons())
}

// The condition that every row meets, which stands in where only one is asked for: by a clause that asks nothing.
pub fn always() -> Condition
    ensures { result ≡ always_record }
{
    Condition {
        size: 1,
        ..Condition::default()
    }
}

// Some rows of a zone that meet the condition, or none.
pub fn met<const N: usize>(z: &Zone<N>, k: &Condition, out: &mut Zone<N>) -> bool
    requires { ConditionFits (columns_of z.now) k.now }
    ensures { Ends (met z.now (condition_of k.now)) result out.new }
{
    for c in k.clauses() {
        if lay_clause(z, c, out) {
            return true;
        }
    }
    false
}
