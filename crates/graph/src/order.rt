// The order "predecessors first".
ghost use Rattle.std.specs.Prelude.{◌≡◌, length};
ghost use Rattle.graph.specs.Ordered.{Orders};

use crate::chains::Chained;
use terms::Subtask;

// Whether the subtasks can stand in an order, predecessors first, which is left in `order`; else the arrows close a cycle, and the answer
// is a subtask below which none is on one. It goes back along the arrows from each subtask in turn. At u, c is the position of the arrow that
// is looked at; the arrows on the way to u stand on the stack. A mark is 1 where the subtask was not come to, its depth on the way and 2
// where it is on the way, and 0 once it is placed: a number, since its depth stands in the same row. (A chain is left in its middle and
// gone along later from there: no `for`.)
pub fn order_subtasks(graph: &Chained<'_>, order: &mut [u16; 256]) -> Result<(), Subtask>
    requires { length order.old ≡ 256 }
    ensures { Orders graph.now.n graph.now.arrows.now order.new result }
{
    let mut mark = [1u16; 257];
    let mut stack = [0u16; 256];
    let mut placed: usize = 0;
    for root in 1..=graph.n {
        if mark[root] != 1 {
            continue;
        }
        mark[root] = 2;
        let mut depth: usize = 0;
        let mut u = root;
        let mut c = graph.begin(Subtask(root));
        loop {
            if c != 0 {
                let from = graph.source(c);
                let p = from.0;
                let m = mark[p];
                if m == 0 {
                    c = graph.after(c);
                } else if m == 1 {
                    stack[depth] = c as u16;
                    depth += 1;
                    mark[p] = (depth + 2) as u16;
                    u = p;
                    c = graph.begin(from);
                } else {
                    return Err(Subtask(root));
                }
            } else {
                mark[u] = 0;
                order[placed] = u as u16;
                placed += 1;
                if depth == 0 {
                    break;
                }
                depth -= 1;
                let a = usize::from(stack[depth]);
                let to = graph.sink(a);
                u = to.0;
                c = graph.after(a);
            }
        }
    }
    Ok(())
}
