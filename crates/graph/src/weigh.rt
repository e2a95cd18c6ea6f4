// C and P.
ghost use Rattle.std.specs.Prelude.{◌≡◌, ◌≤◌, ◌<◌, length};
ghost use Rattle.terms.specs.Paths.{total_work, IsLongest};
ghost use Rattle.graph.specs.Ordered.{Ordered};
ghost use Rattle.graph.specs.Latest.{Latest};

use crate::chains::Chained;
use inputs::{time_in, time_of};
use terms::Subtask;

// C: the sum of all times.
pub fn total(times: &[u16]) -> u32
    requires { length times.now ≤ 256 }
    ensures { result ≡ total_work times.now }
{
    times.iter().map(|&time| time_in(time)).sum()
}

// The largest finish of the subtasks from which an arrow of the chain goes to v, 0 for none.
fn latest(graph: &Chained<'_>, v: Subtask, finish: &[u32; 257]) -> u32
    requires { v.0 < 257 }
    ensures { Latest graph.now.arrows.now finish.now v.0 0 result }
{
    let mut most: u32 = 0;
    let mut c = graph.begin(v);
    while c != 0 {
        let from = graph.source(c);
        let p = from.0;
        most = most.max(finish[p]);
        c = graph.after(c);
    }
    most
}

// P: in an order with predecessors first, the largest weight of a path that ends in each subtask; the largest of all.
pub fn longest(times: &[u16], graph: &Chained<'_>, order: &[u16; 256]) -> u32
    requires subtasks { (graph.now.n ≡ length times.now) × (1 ≤ length times.now) }
    requires ordered { Ordered (length times.now) graph.now.arrows.now order.now }
    ensures { IsLongest times.now graph.now.arrows.now result }
{
    let mut finish = [0u32; 257];
    let mut most: u32 = 0;
    for &entry in &order[..times.len()] {
        let v = usize::from(entry);
        let before = latest(graph, Subtask(v), &finish);
        let time = time_of(times, Subtask(v));
        let f = before + time;
        finish[v] = f;
        most = most.max(f);
    }
    most
}
