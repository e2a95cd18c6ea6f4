// The tables that are made once for a list plan.
ghost use Rattle.std.specs.Prelude.{◌≡◌, false, length, replicate};
ghost use Rattle.terms.specs.Graphs.{from_of};
ghost use Rattle.graph.specs.Chains.{Chains};
ghost use Rattle.listplan.specs.Tables.{Roomy, ArrowsTo, Distinct, Ranks, Sources};

use crate::marks::Marks;
use inputs::{arrow_of, subtask_in};
use terms::Arrow;

// For each subtask the chain of the arrows from it, the latest first: `first` holds the position of that one, `next` of the one before
// it. And how many arrows go to each subtask.
pub fn chain_arrows(
    arrows: &[[u16; 2]],
    first: &mut [u16; 257],
    next: &mut [u16; 2048],
    left: &mut [u16; 257],
)
    requires roomy { Roomy arrows.now }
    requires first_value { (first.old ≡ replicate 257 0) × (length next.old ≡ 2048) × (left.old ≡ replicate 257 0) }
    ensures chains { Chains (from_of arrows.now) first.new next.new (length arrows.now) }
    ensures arrows_to { ArrowsTo arrows.now left.new (length arrows.now) }
{
    for (i, ends) in arrows.iter().enumerate() {
        let Arrow { from, to } = arrow_of(ends);
        let u = from.0;
        next[i] = first[u];
        first[u] = (i + 1) as u16;
        left[to.0] += 1;
    }
}

// Where each subtask stands in the order; and a mark for each place of the order whose subtask has no predecessor.
pub fn rank_subtasks(order: &[u16], left: &[u16; 257], rank: &mut [u16; 257], marks: &mut Marks)
    requires distinct { Distinct order.now }
    requires left_len { (length left.now ≡ 257) × (length rank.old ≡ 257) × (marks.old ≡ replicate 256 false) }
    ensures ranks { Ranks order.now rank.new (length order.now) }
    ensures sources { Sources order.now left.now marks.new (length order.now) }
{
    for (x, number) in order.iter().enumerate() {
        let j = subtask_in(*number).0;
        rank[j] = x as u16;
        if left[j] == 0 {
            marks.mark(x);
        }
    }
}
