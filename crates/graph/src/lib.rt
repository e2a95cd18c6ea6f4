// Refusals 1 to 8, the order "predecessors first", C and P. A graph comes as the two rows that are lent, here and above: the definitions
// speak of each of them, and a struct of both would stand in every clause (docs/DECISIONS.md).
#![tactic(auto)]

mod chains;
mod cycle;
mod order;
mod scan;
mod weigh;

ghost use Rattle.std.specs.Prelude.{◌≡◌, [], ◌∷◌, ◌+◌, ◌≤◌, ◌<◌, false, length, replicate};
ghost use Rattle.terms.specs.Rows.{Accepted};
ghost use Rattle.terms.specs.Refusals.{first_arrow, NamesOutside, subtask_rows, size_rows, arrow_rows, graph_rows, named_rows, on_rows};
ghost use Rattle.terms.specs.Replies.{IsCheck, IsMeasure, IsTotalWork, IsLongestPath};
ghost use Rattle.graph.specs.Links.{IsEmpty};
ghost use Rattle.graph.specs.Finds.{Finds, WrongEnds};
ghost use Rattle.graph.specs.Scans.{AllJoin};

use crate::chains::{Chained, Links};
use crate::cycle::lowest_on_cycle;
use crate::order::order_subtasks;
use crate::scan::{all_join_two, first_loop, first_outside, first_repeat};
use crate::weigh::{longest, total};
use limits::{check_processors, check_size, check_subtasks};
use terms::{Refusal, Weights};

// The position, counted from 1, of the arrow at a place.
fn position_of(place: usize) -> u32
    requires { place < 2048 }
    ensures { result ≡ place + 1 }
{
    place as u32 + 1
}

// 4 at the first arrow that names a subtask outside 1..n, else 5 at the first that goes from a subtask to itself.
fn refuse_ends(n: usize, arrows: &[[u16; 2]]) -> Refusal
    requires few { (n ≤ 256) × (length arrows.now ≤ 2048) }
    requires wrong { AllJoin n arrows.now (length arrows.now) false }
    ensures { WrongEnds n arrows.now result }
{
    if let Some(outside) = first_outside(n, arrows) {
        return Refusal::ArrowOutside(position_of(outside));
    }
    let Some(at) = first_loop(arrows) else {
        unreachable!()
    };
    Refusal::ArrowToItself(position_of(at))
}

// 4 to 7. Where none holds, the arrows are left as chains and the subtasks in an order, predecessors first.
fn check_arrows(
    times: &[u16],
    arrows: &[[u16; 2]],
    links: &mut Links,
    order: &mut [u16; 256],
) -> Result<(), Refusal>
    requires accepted { Accepted (subtask_rows times.now) × Accepted (size_rows arrows.now) }
    requires empty { IsEmpty links.old × (length order.old ≡ 256) }
    ensures { Finds (arrow_rows times.now arrows.now)
        times.now arrows.now links.new order.new result }
{
    let n = times.len();
    if !all_join_two(n, arrows) {
        return Err(refuse_ends(n, arrows));
    }
    links.link(n, arrows);
    let graph = Chained { n, arrows, links };
    if let Some(repeat) = first_repeat(&graph) {
        return Err(Refusal::ArrowTwice(position_of(repeat)));
    }
    match order_subtasks(&graph, order) {
        Ok(()) => Ok(()),
        Err(from) => match lowest_on_cycle(&graph, from) {
            Some(lowest) => Err(Refusal::Cycle(lowest.0 as u32)),
            None => unreachable!(),
        },
    }
}

// 1 to 7. Where none holds, the arrows are left as chains and the subtasks in an order, predecessors first.
fn check_and_order(
    times: &[u16],
    arrows: &[[u16; 2]],
    links: &mut Links,
    order: &mut [u16; 256],
) -> Result<(), Refusal>
    requires { IsEmpty links.old × (length order.old ≡ 256) }
    ensures { Finds (graph_rows times.now arrows.now)
        times.now arrows.now links.new order.new result }
{
    check_subtasks(times)?;
    check_size(arrows)?;
    check_arrows(times, arrows, links, order)
}

// Whether a graph is accepted.
pub fn check(times: &[u16], arrows: &[[u16; 2]]) -> Result<(), Refusal>
    ensures { IsCheck (graph_rows times.now arrows.now) result }
{
    let mut links = Links::none();
    let mut order = [0u16; 256];
    check_and_order(times, arrows, &mut links, &mut order)
}

// Whether a graph on m processors is accepted.
pub fn check_on(times: &[u16], arrows: &[[u16; 2]], m: u32) -> Result<(), Refusal>
    ensures { IsCheck (on_rows times.now arrows.now m) result }
{
    check(times, arrows)?;
    check_processors(m)
}

// 4 alone.
fn check_outside(times: &[u16], arrows: &[[u16; 2]]) -> Result<(), Refusal>
    requires { Accepted (subtask_rows times.now) × Accepted (size_rows arrows.now) }
    ensures { IsCheck (first_arrow 4 arrows.now (NamesOutside times.now arrows.now) ∷ []) result }
{
    let n = times.len();
    if all_join_two(n, arrows) {
        return Ok(());
    }
    match first_outside(n, arrows) {
        Some(outside) => Err(Refusal::ArrowOutside(position_of(outside))),
        None => Ok(()),
    }
}

// Whether the arrows name subtasks, whatever they join: 1 to 4.
pub fn check_named(times: &[u16], arrows: &[[u16; 2]]) -> Result<(), Refusal>
    ensures { IsCheck (named_rows times.now arrows.now) result }
{
    check_subtasks(times)?;
    check_size(arrows)?;
    check_outside(times, arrows)
}

// C and P together.
pub fn measure(times: &[u16], arrows: &[[u16; 2]]) -> Result<Weights, Refusal>
    ensures { IsMeasure (graph_rows times.now arrows.now) times.now arrows.now result }
{
    let mut links = Links::none();
    let mut order = [0u16; 256];
    check_and_order(times, arrows, &mut links, &mut order)?;
    let graph = Chained {
        n: times.len(),
        arrows,
        links: &links,
    };
    Ok(Weights {
        c: total(times),
        p: longest(times, &graph, &order),
    })
}

// C and P of a graph on m processors.
pub fn measure_on(times: &[u16], arrows: &[[u16; 2]], m: u32) -> Result<Weights, Refusal>
    ensures { IsMeasure (on_rows times.now arrows.now m) times.now arrows.now result }
{
    let weights = measure(times, arrows)?;
    check_processors(m)?;
    Ok(weights)
}

// C.
pub fn total_work(times: &[u16], arrows: &[[u16; 2]]) -> Result<u32, Refusal>
    ensures { IsTotalWork times.now arrows.now result }
{
    check(times, arrows)?;
    Ok(total(times))
}

// P.
pub fn longest_path(times: &[u16], arrows: &[[u16; 2]]) -> Result<u32, Refusal>
    ensures { IsLongestPath times.now arrows.now result }
{
    let weights = measure(times, arrows)?;
    Ok(weights.p)
}
