// The lowest subtask on any cycle, which is asked for only where the arrows close one.
ghost use Rattle.std.specs.Prelude.{ℕ, ◌<◌};
ghost use Rattle.terms.specs.Graphs.{Among, LeadsTo};
ghost use Rattle.theory.specs.First.{IsFirstSubtask};
ghost use Rattle.theory.specs.Flags.{Says};

use crate::chains::Chained;
use terms::Subtask;

// Whether the arrows lead from a subtask back to it. It goes back along the arrows from there: each subtask that is met stands in the queue
// once, and has its turn at v. c is the position of the arrow that is looked at. (The queue grows while it is gone along: no `for`.)
fn leads_back(graph: &Chained<'_>, root: Subtask) -> bool
    requires { Among 1 graph.now.n root.0 }
    ensures { Says (LeadsTo graph.now.arrows.now root.0 root.0) result }
{
    let mut met = [false; 257];
    let mut queue = [0u16; 256];
    let mut queued: usize = 0;
    let mut done: usize = 0;
    let mut v = root.0;
    loop {
        let mut c = graph.begin(Subtask(v));
        while c != 0 {
            let from = graph.source(c);
            let p = from.0;
            if p == root.0 {
                return true;
            }
            if !met[p] {
                met[p] = true;
                queue[queued] = p as u16;
                queued += 1;
            }
            c = graph.after(c);
        }
        if done == queued {
            return false;
        }
        v = usize::from(queue[done]);
        done += 1;
    }
}

// 7: the lowest subtask that the arrows lead back to; below `from` there is none.
pub fn lowest_on_cycle(graph: &Chained<'_>, from: Subtask) -> Option<Subtask>
    requires { Among 1 graph.now.n from.0 × ((j : ℕ) → j < from.0 → ¬ LeadsTo graph.now.arrows.now j j) }
    ensures { IsFirstSubtask graph.now.n (λ j. LeadsTo graph.now.arrows.now j j) result }
{
    for j in from.0..=graph.n {
        if leads_back(graph, Subtask(j)) {
            return Some(Subtask(j));
        }
    }
    None
}
