// Two graphs joined, end to end or side by side, into lent rows; and the figures of a nest of such joins. The second's numbers follow the first's.
#![tactic(auto)]

mod checks;
mod graphs;
mod puts;

ghost use Rattle.std.specs.Prelude.{◌≡◌, ◌++◌, ◌+◌, ◌*◌, ◌≤◌, length, drop};
ghost use Rattle.std.proofs.lemmas.List.Edits.{sets};
ghost use Rattle.terms.specs.Arrangements.{lasts_of};
ghost use Rattle.terms.specs.Joins.{graph_of, end_to_end, side_by_side, joined_to};
ghost use Rattle.terms.specs.Replies.{IsJoined, IsJoin, IsNestMeasure};
ghost use Rattle.joins.specs.Tables.{Joinable};

use crate::checks::{check_both, check_made};
use crate::graphs::Lent;
use crate::puts::{put_graph, put_numbers};
use arranged::{firsts, lasts};
use nests::figures_of;
use terms::{GraphSize, Refusal, Weights};

// The joined graph, put down in rows that have room for it.
fn put_joined(
    first: Lent<'_>,
    second: Lent<'_>,
    targets: &[u16],
    times: &mut [u16],
    arrows: &mut [[u16; 2]],
)
    requires joinable { Joinable (graph_of first.times.now first.arrows.now) (graph_of second.times.now second.arrows.now) targets.now }
    requires room { length first.times.now + length second.times.now ≤ length times.old }
    requires room_for_arrows { length (joined_to targets.now (graph_of first.times.now first.arrows.now) (graph_of second.times.now second.arrows.now)).arrows
        ≤ length arrows.old }
    ensures times_after { let n = length first.entry.times.now + length second.entry.times.now in
        times.new ≡ first.entry.times.now ++ second.entry.times.now ++ drop n times.old }
    ensures arrows_after { arrows.new ≡ sets arrows.old 0 (joined_to targets.now
        (graph_of first.entry.times.now first.entry.arrows.now)
        (graph_of second.entry.times.now second.entry.arrows.now)).arrows }
{
    let n = first.times.len();
    put_numbers(times, 0, first.times);
    put_numbers(times, n, second.times);
    let behind = put_graph(arrows, 0, 0, first, targets);
    put_graph(arrows, behind, n, second, &[]);
}

// The join of two accepted graphs, with arrows to these of the second added, so many. Every refusal is decided before anything is put down.
fn join_to(
    first: Lent<'_>,
    second: Lent<'_>,
    targets: &[u16],
    added: usize,
    times: &mut [u16],
    arrows: &mut [[u16; 2]],
) -> Result<GraphSize, Refusal>
    requires joinable { Joinable (graph_of first.times.now first.arrows.now) (graph_of second.times.now second.arrows.now) targets.now }
    requires added_value { added ≡ length (lasts_of (length first.times.now) first.arrows.now) * length targets.now }
    ensures { let a = graph_of first.entry.times.now first.entry.arrows.now in
        let b = graph_of second.entry.times.now second.entry.arrows.now in
        IsJoined a b (joined_to targets.now a b)
        times.old arrows.old times.new arrows.new result }
{
    let n = first.times.len() + second.times.len();
    let many = first.arrows.len() + second.arrows.len() + added;
    check_made(n, many, times.len(), arrows.len())?;
    put_joined(first, second, targets, times, arrows);
    Ok(GraphSize {
        subtasks: n,
        arrows: many,
    })
}

// The first and then the second: an arrow from each subtask of the first without successors to each of the second without predecessors.
pub fn end_to_end(
    first_times: &[u16],
    first_arrows: &[[u16; 2]],
    second_times: &[u16],
    second_arrows: &[[u16; 2]],
    times: &mut [u16],
    arrows: &mut [[u16; 2]],
) -> Result<GraphSize, Refusal>
    ensures { IsJoin end_to_end (graph_of first_times.now first_arrows.now)
        (graph_of second_times.now second_arrows.now)
        times.old arrows.old times.new arrows.new result }
{
    let first = Lent {
        times: first_times,
        arrows: first_arrows,
    };
    let second = Lent {
        times: second_times,
        arrows: second_arrows,
    };
    check_both(first, second)?;
    let mut list = [0u16; 256];
    let ends = lasts(first_times.len(), first_arrows, &mut list);
    let count = firsts(second_times.len(), second_arrows, &mut list);
    join_to(first, second, &list[..count], ends * count, times, arrows)
}

// The two side by side: no arrow is added.
pub fn side_by_side(
    first_times: &[u16],
    first_arrows: &[[u16; 2]],
    second_times: &[u16],
    second_arrows: &[[u16; 2]],
    times: &mut [u16],
    arrows: &mut [[u16; 2]],
) -> Result<GraphSize, Refusal>
    ensures { IsJoin side_by_side (graph_of first_times.now first_arrows.now)
        (graph_of second_times.now second_arrows.now)
        times.old arrows.old times.new arrows.new result }
{
    let first = Lent {
        times: first_times,
        arrows: first_arrows,
    };
    let second = Lent {
        times: second_times,
        arrows: second_arrows,
    };
    check_both(first, second)?;
    join_to(first, second, &[], 0, times, arrows)
}

// C and P of a nest, out of the row that it is written as.
pub fn nest_figures(row: &[[u32; 3]]) -> Result<Weights, Refusal>
    ensures { IsNestMeasure row.now result }
{
    figures_of(row)
}
