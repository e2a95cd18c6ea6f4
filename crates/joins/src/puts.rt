// Arrows and times put down in lent rows, from a place on: the rows have room for them.
ghost use Rattle.std.specs.Prelude.{◌≡◌, ℕ, ◌+◌, ◌≤◌, ◌<◌, length, get_or};
ghost use Rattle.std.proofs.lemmas.List.Edits.{sets};
ghost use Rattle.terms.specs.Joins.{graph_of};
ghost use Rattle.terms.specs.Arrangements.{row_of, successors_of};
ghost use Rattle.theory.specs.Joined.{IsAccepted};
ghost use Rattle.joins.specs.Puts.{Puts, run_of, rows_arrows, SmallRows, Moves};

use crate::graphs::Lent;
use arranged::by_from;

// Some numbers. (One by one: the library's `copy_from_slice` asks memmove of whoever links the planner.)
pub fn put_numbers(row: &mut [u16], at: usize, numbers: &[u16])
    requires { at + length numbers.now ≤ length row.old }
    ensures { row.new ≡ sets row.old at numbers.now }
{
    for (i, &number) in numbers.iter().enumerate() {
        row[at + i] = number;
    }
}

// The arrows from one number to each of some others, these moved up.
fn put_run(arrows: &mut [[u16; 2]], at: usize, from: usize, up: usize, numbers: &[u16])
    requires small { (from < 65536) × ((i : ℕ) → i < length numbers.now → up + get_or numbers.now i 0 < 65536) }
    requires room { at + length numbers.now ≤ length arrows.old }
    ensures { arrows.new ≡ sets arrows.old at (run_of from up numbers.now) }
{
    for (i, &number) in numbers.iter().enumerate() {
        arrows[at + i] = [from as u16, (up + usize::from(number)) as u16];
    }
}

// The arrows out of n subtasks, row by row, all numbers moved up; out of one whose row is empty those to each of some numbers behind the n.
fn put_rows(
    arrows: &mut [[u16; 2]],
    at: usize,
    up: usize,
    n: usize,
    begins: &[u16],
    numbers: &[u16],
    targets: &[u16],
) -> usize
    requires small_rows { SmallRows n begins.now numbers.now × Moves up n targets.now }
    requires room { at + length (rows_arrows up n targets.now (row_of begins.now numbers.now) n) ≤ length arrows.old }
    ensures { Puts arrows.old at (rows_arrows up n targets.now (row_of begins.now numbers.now) n)
        arrows.new result }
{
    let mut k = at;
    for v in 1..=n {
        let row = &numbers[usize::from(begins[v - 1])..usize::from(begins[v])];
        if row.is_empty() {
            put_run(arrows, k, up + v, up + n, targets);
            k += targets.len();
        } else {
            put_run(arrows, k, up + v, up, row);
            k += row.len();
        }
    }
    k
}

// The arrows of an accepted graph, in the same form.
pub fn put_graph(
    arrows: &mut [[u16; 2]],
    at: usize,
    up: usize,
    graph: Lent<'_>,
    targets: &[u16],
) -> usize
    requires accepted { IsAccepted (graph_of graph.times.now graph.arrows.now) × Moves up (length graph.times.now) targets.now }
    requires room { let n = length graph.times.now in
        at + length (rows_arrows up n targets.now (successors_of n graph.arrows.now) n) ≤ length arrows.old }
    ensures { let n = length graph.entry.times.now in
        Puts arrows.old at (rows_arrows up n targets.now (successors_of n graph.entry.arrows.now) n) arrows.new result }
{
    let mut begins = [0u16; 257];
    let mut numbers = [0u16; 2048];
    // an accepted graph is not refused
    let _ = by_from(graph.times, graph.arrows, &mut begins, &mut numbers);
    put_rows(
        arrows,
        at,
        up,
        graph.times.len(),
        &begins,
        &numbers,
        targets,
    )
}
