// Lists of comparisons as zones: node 0 stands for the constant zero, node c + 1 for column c, and values are biased. What imposes on a
// lent zone answers whether rows are left, as the methods of zones do.
#![tactic(auto)]

ghost use Rattle.std.specs.Prelude.{◌≡◌, ◌*◌, ◌<◌, T, length, map};
ghost use Rattle.base.specs.Lists.{all_of};
ghost use Rattle.base.specs.Options.{is_some};
ghost use Rattle.model.specs.Least.{least_row};
ghost use Rattle.zone.specs.Zone.{level, columns_of, kept, least_of};
ghost use Rattle.solver.specs.Solver.{comparison_fits, los, his, row_of, box_of, imposed_by, imposed, imposed_all};
ghost use Rattle.solver.specs.Uses.{Words, WordNodes, BoundsRoom, NodesIn, Solves};
ghost use Rattle.solver.specs.Comparisons.{added_to, over_nodes, at_most_by, one, between, against, negations_of};
ghost use Rattle.job.specs.Meaning.{side_of, comparison_of};
ghost use Rattle.solver.specs.Lists.{reached, row_or_zeros};

use job::Comparison;
use model::Bounds;
use std::marker::Model;
use words::Op;
use zone::{Constraint, Zone};

// What a comparison comes to: one constraint, or two.
#[derive(Clone, Copy, PartialEq, Eq)]
pub struct Constraints {
    pub first: Constraint,
    pub second: Option<Constraint>,
}

fn one(left: usize, right: usize, most: u64) -> Constraints
    ensures { result ≡ one (at_most_by left right most) }
{
    Constraints {
        first: Constraint { left, right, most },
        second: None,
    }
}

// What is added to the right node of a comparison: the number, where that node is 0. The node is the record's number, which says both what
// is compared and with what.
fn added_to(right: u8, number: i32) -> u64
    ensures { result ≡ added_to (side_of right number) }
{
    if right == 0 {
        words::to_biased(number) + (zone::LEVEL - words::BIAS)
    } else {
        zone::LEVEL
    }
}

// A comparison over nodes: the left one compared by op with the right one and what is added to it.
#[derive(Drop)]
pub struct OverNodes {
    op: Op,
    left: usize,
    right: usize,
    added: u64,
}

// What is added leaves room both ways, so that no constraint falls below zero.
impl Model for OverNodes {
    ghost use Rattle.std.specs.Prelude.{◌*◌, ◌<◌};
    ghost use Rattle.zone.specs.Zone.{level};
    ghost use Rattle.solver.specs.Comparisons.{Nodes};

    ghost Value = { Nodes };

    ghost view = { λ n. record { op = n.op; left = n.left; right = n.right; added = n.added } };

    ghost invariant = { λ n. (0 < n.added) × (n.added < 2 * level) };
}

impl From<Comparison> for OverNodes {
    ghost from_gives = { λ k n. n ≡ over_nodes (comparison_of k) };

    fn from(k: Comparison) -> Self {
        Self::new(
            Op::at(k.op),
            usize::from(k.left) + 1,
            usize::from(k.right),
            added_to(k.right, k.number),
        )
    }
}

impl OverNodes {
    // Of any two nodes, and anything that may be added.
    pub fn new(op: Op, left: usize, right: usize, added: u64) -> Self
        requires { (0 < added) × (added < 2 * level) }
        ensures { result ≡ record { op = op; left = left; right = right; added = added } }
    {
        Self {
            op,
            left,
            right,
            added,
        }
    }

    // The constraints that hold where it does.
    pub fn constraints(&self) -> Constraints
        ensures { result ≡ between self.now.op self.now.left self.now.right self.now.added }
    {
        let a = self.left;
        let b = self.right;
        let most = self.added;
        match self.op {
            Op::Less => one(a, b, most - 1),
            Op::AtMost => one(a, b, most),
            Op::Equal => Constraints {
                first: Constraint {
                    left: a,
                    right: b,
                    most,
                },
                second: Some(Constraint {
                    left: b,
                    right: a,
                    most: zone::TWICE - most,
                }),
            },
            Op::AtLeast => one(b, a, zone::TWICE - most),
            Op::More => one(b, a, zone::TWICE - most - 1),
        }
    }

    // The same nodes, compared by another op.
    fn by(&self, op: Op) -> Constraints
        ensures { result ≡ between op self.now.left self.now.right self.now.added }
    {
        Self { op, ..*self }.constraints()
    }

    // The ways in which it fails: the constraints of the ops that hold where this one doesn't.
    fn negations(&self) -> Constraints
        ensures { result ≡ against self.now.op self.now.left self.now.right self.now.added }
    {
        match self.op {
            Op::Less => self.by(Op::AtLeast),
            Op::AtMost => self.by(Op::More),
            Op::Equal => Constraints {
                first: self.by(Op::Less).first,
                second: Some(self.by(Op::More).first),
            },
            Op::AtLeast => self.by(Op::Less),
            Op::More => self.by(Op::AtMost),
        }
    }

    // Keeps the rows of a zone that meet it; where there are none it says so, and leaves the zone as it is. That is why both constraints of
    // "equal" are looked at before the first is set.
    fn impose<const N: usize>(&self, z: &mut Zone<N>) -> bool
        requires { NodesIn z.old self.now }
        ensures answer { result ≡ is_some (imposed_by z.old (between self.now.op self.now.left self.now.right self.now.added)) }
        ensures zone { z.new ≡ kept z.old (imposed_by z.old (between self.now.op self.now.left self.now.right self.now.added)) }
    {
        // a look at a field tells what is true of each
        let _ = &self.added;
        let p = self.constraints();
        let first = p.first;
        let Some(second) = p.second else {
            return z.constrain(first);
        };
        if !z.allows(second) {
            return false;
        }
        if !z.constrain(first) {
            return false;
        }
        z.constrain(second)
    }
}

// The values of a row of nodes.
fn from_nodes(x: &[u64], row: &mut [i32])
    requires { WordNodes x.now row.old }
    ensures { row.new ≡ row_of x.now }
{
    for (i, v) in row.iter_mut().enumerate() {
        *v = words::from_biased(x[i + 1]);
    }
}

// The zone of the rows within bounds, in place of what was there.
pub fn set_bounds<const N: usize>(z: &mut Zone<N>, bounds: &[Bounds])
    requires { BoundsRoom N bounds.now }
    ensures zone { z.new ≡ box_of bounds.now }
    ensures words { Words (los bounds.now) × Words (his bounds.now) }
{
    let n = bounds.len() + 1;
    // node 0 is left as it stands here
    let mut low = [words::BIAS; zone::WIDTH];
    let mut high = [words::BIAS; zone::WIDTH];
    for (i, b) in bounds.iter().enumerate() {
        low[i + 1] = words::to_biased(b.lo);
        high[i + 1] = words::to_biased(b.hi);
    }
    z.set_box(&low[..n], &high[..n]);
}

// The ways in which a comparison fails; one of them holds where it doesn't.
#[tactic(auto, unfolding(crate::specs::Comparisons::negations_of))]
pub fn negations(k: Comparison) -> Constraints
    ensures { result ≡ negations_of (comparison_of k) }
{
    OverNodes::from(k).negations()
}

// Keeps the rows that meet a comparison; where there are none it says so, and leaves the zone as it is.
#[tactic(auto, unfolding(crate::specs::Solver::imposed, crate::specs::Comparisons::constraints_of))]
pub fn impose<const N: usize>(z: &mut Zone<N>, k: Comparison) -> bool
    requires { T (comparison_fits (columns_of z.old) (comparison_of k)) }
    ensures answer { result ≡ is_some (imposed z.old (comparison_of k)) }
    ensures zone { z.new ≡ kept z.old (imposed z.old (comparison_of k)) }
{
    OverNodes::from(k).impose(z)
}

// Imposes a list of comparisons, one after the other, up to the first that leaves no row.
pub fn impose_all<const N: usize>(z: &mut Zone<N>, list: &[Comparison]) -> bool
    requires { T (all_of (comparison_fits (columns_of z.old)) (map comparison_of list.now)) }
    ensures answer { result ≡ is_some (imposed_all z.old (map comparison_of list.now)) }
    ensures zone { z.new ≡ reached z.old (map comparison_of list.now) }
{
    for k in list {
        if !impose(z, *k) {
            return false;
        }
    }
    true
}

// The least row of a zone whose values are of 32 bits.
pub fn read_least<const N: usize>(z: &Zone<N>, row: &mut [i32])
    requires { WordNodes (least_of z.now) row.old }
    ensures { row.new ≡ row_of (least_of z.now) }
{
    let n = z.nodes();
    let mut x = [0u64; zone::WIDTH];
    z.least(&mut x[..n]);
    from_nodes(&x[..n], row);
}

// The row with the least value in every column among the rows within bounds that meet a list of comparisons, or none, with zeros in its
// place. The row is lent, as long as there are columns, since a result of its own would be as long as there can be at most.
pub fn least_row(bounds: &[Bounds], list: &[Comparison], row: &mut [i32]) -> bool
    requires { Solves bounds.now list.now row.old }
    ensures answer { result ≡ is_some (least_row bounds.now (map comparison_of list.now)) }
    ensures row { row.new ≡ row_or_zeros (length bounds.now) (least_row bounds.now (map comparison_of list.now)) }
{
    let mut z: Zone<{ zone::SIZE }> = Zone::new();
    set_bounds(&mut z, bounds);
    if impose_all(&mut z, list) {
        read_least(&z, row);
        return true;
    }
    row.fill(0);
    false
}
