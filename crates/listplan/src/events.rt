// An arrow is counted off.
ghost use Rattle.std.specs.Prelude.{◌≡◌, ◌≤◌, ◌<◌, length, get_or};
ghost use Rattle.terms.specs.Graphs.{to_of};
ghost use Rattle.listplan.specs.Making.{CountedOff};

use crate::marks::Marks;
use crate::rule::Job;
use inputs::to_at;

// Counts off the arrow at a place of the row. No place of the order below `low` is marked; the answer is a place below which none is now.
pub fn count_off(
    job: &Job,
    left: &mut [u16; 257],
    marks: &mut Marks,
    place: usize,
    low: usize,
) -> usize
    requires to { (to_of job.now.arrows.now place < 257) × (get_or job.now.rank.now (to_of job.now.arrows.now place) 0 < 256) }
    requires left { (length left.old ≡ 257) × (1 ≤ get_or left.old (to_of job.now.arrows.now place) 0) }
    ensures { CountedOff job.now.arrows.now job.now.rank.now left.old marks.old left.new marks.new place low result }
{
    let j = to_at(job.arrows, place).0;
    left[j] -= 1;
    if left[j] != 0 {
        return low;
    }
    let x = usize::from(job.rank[j]);
    marks.mark(x);
    low.min(x)
}
