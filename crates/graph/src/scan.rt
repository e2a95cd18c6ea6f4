// Scans over the arrows. One that answers a place answers the first at which a condition holds.
ghost use Rattle.std.specs.Prelude.{◌≡◌, ◌≤◌, length, get_or};
ghost use Rattle.terms.specs.Graphs.{Among};
ghost use Rattle.terms.specs.Refusals.{Repeats};
ghost use Rattle.theory.specs.First.{IsFirst};
ghost use Rattle.theory.specs.Flags.{Says};
ghost use Rattle.graph.specs.Scans.{Outside, Loops, TwoOf, AllJoin, earlier_of};

use crate::chains::Chained;
use terms::Subtask;

// Whether a number is one of the subtasks 1..most.
fn is_among(most: u16, number: u16) -> bool
    ensures { Says (Among 1 most number) result }
{
    (1..=most).contains(&number)
}

// 4: the first arrow that names a subtask outside 1..n.
pub fn first_outside(n: usize, arrows: &[[u16; 2]]) -> Option<usize>
    requires { n ≤ 256 }
    ensures { IsFirst (length arrows.now) (Outside n arrows.now) result }
{
    let most = n as u16;
    arrows.iter().position(|&[from, to]| !(is_among(most, from) && is_among(most, to)))
}

// Whether an arrow goes from one of the subtasks 1..most to another.
fn joins_two(most: u16, ends: [u16; 2]) -> bool
    ensures { Says (TwoOf most (get_or ends 0 0) (get_or ends 1 0)) result }
{
    let [from, to] = ends;
    is_among(most, from) && is_among(most, to) && from != to
}

// 4 and 5: whether every arrow does so. None ends the loop early, so that many arrows are looked at together.
pub fn all_join_two(n: usize, arrows: &[[u16; 2]]) -> bool
    requires { n ≤ 256 }
    ensures { AllJoin n arrows.now (length arrows.now) result }
{
    let most = n as u16;
    let mut all = true;
    for &ends in arrows {
        all &= joins_two(most, ends);
    }
    all
}

// 5: the first arrow that goes from a subtask to itself.
pub fn first_loop(arrows: &[[u16; 2]]) -> Option<usize>
    ensures { IsFirst (length arrows.now) (Loops arrows.now) result }
{
    arrows.iter().position(|[from, to]| from == to)
}

// The earlier of a place and one that may have been found.
fn earlier(found: Option<usize>, place: usize) -> usize
    ensures { result ≡ earlier_of found place }
{
    found.map_or(place, |first| first.min(place))
}

// 6: the first arrow that is the same as one before it. Along the chain of arrows into v, the latest first, met[u] is the position of the
// arrow from u that was met last, and seen[u] the subtask in whose chain: where that is v, the arrow is the same as the present one.
pub fn first_repeat(graph: &Chained<'_>) -> Option<usize>
    ensures { IsFirst (length graph.now.arrows.now) (Repeats graph.now.arrows.now) result }
{
    let mut seen = [0u16; 257];
    let mut met = [0u16; 257];
    let mut found: Option<usize> = None;
    for v in 1..=graph.n {
        let mut c = graph.begin(Subtask(v));
        while c != 0 {
            let from = graph.source(c);
            let u = from.0;
            if usize::from(seen[u]) == v {
                found = Some(earlier(found, usize::from(met[u]) - 1));
            }
            seen[u] = v as u16;
            met[u] = c as u16;
            c = graph.after(c);
        }
    }
    found
}
