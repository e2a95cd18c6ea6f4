// Runs the worked joins and nests of docs/PLANNER.md, examples 15 and 16. What each must say stands in the file `stdout`.
#![tactic(auto)]

use graph::measure;
use joins::{end_to_end, nest_figures, side_by_side};
use std::io;
use terms::{GraphSize, Refusal, Weights};

// C and P, or the number of the refusal.
fn print_measure(rt: &impl Print, reply: Result<Weights, Refusal>) -> io::Result<()> {
    match reply {
        Ok(Weights { c, p }) => print!(rt; " C,{c} P,{p}"),
        Err(refusal) => {
            let number = refusal.number();
            print!(rt; " refused,{number}")
        }
    }
}

// How many subtasks and arrows, or the number of the refusal.
fn print_counts(rt: &impl Print, reply: Result<GraphSize, Refusal>) -> io::Result<()> {
    match reply {
        Ok(GraphSize { subtasks, arrows }) => print!(rt; "{subtasks} subtasks, {arrows} arrows:"),
        Err(refusal) => {
            let number = refusal.number();
            print!(rt; "refused,{number}")
        }
    }
}

fn print_times(rt: &impl Print, times: &[u16]) -> io::Result<()> {
    for time in times {
        print!(rt; " {time}")?;
    }
    Ok(())
}

fn print_arrows(rt: &impl Print, arrows: &[[u16; 2]]) -> io::Result<()> {
    for [from, to] in arrows {
        print!(rt; ", {from} to {to}")?;
    }
    Ok(())
}

// Example 15: a fork and a meeting, end to end, in rows of their size.
fn behind(rt: &impl Print) -> io::Result<()> {
    let mut times = [7u16; 6];
    let mut arrows = [[7u16; 2]; 8];
    print!(rt; "15: end to end ")?;
    print_counts(
        rt,
        end_to_end(
            &[3, 2, 1],
            &[[1, 3], [1, 2]],
            &[4, 5, 6],
            &[[2, 3], [1, 3]],
            &mut times,
            &mut arrows,
        ),
    )?;
    print_times(rt, &times)?;
    print_arrows(rt, &arrows)?;
    print_measure(rt, measure(&times, &arrows))
}

// And side by side.
fn beside(rt: &impl Print, times: &mut [u16], arrows: &mut [[u16; 2]]) -> io::Result<()> {
    print_counts(
        rt,
        side_by_side(
            &[3, 2, 1],
            &[[1, 3], [1, 2]],
            &[4, 5, 6],
            &[[2, 3], [1, 3]],
            times,
            arrows,
        ),
    )?;
    print_times(rt, times)?;
    print_arrows(rt, arrows)
}

// In rows of its size; in rows with a place more, which stays as it was; and in rows that are too short, which stay so too.
fn all_beside(rt: &impl Print) -> io::Result<()> {
    let mut times = [7u16; 6];
    let mut arrows = [[7u16; 2]; 4];
    print!(rt; "\n15: side by side ")?;
    beside(rt, &mut times, &mut arrows)?;
    print_measure(rt, measure(&times, &arrows))?;
    let mut more = [7u16; 7];
    let mut more_arrows = [[7u16; 2]; 5];
    print!(rt; "\nwith more room ")?;
    beside(rt, &mut more, &mut more_arrows)?;
    let mut less_arrows = [[7u16; 2]; 3];
    print!(rt; "\nwith less ")?;
    beside(rt, &mut more, &mut less_arrows)
}

// Example 16: a sequence of the fork and of a group; and what is the writing of no nest.
fn nests(rt: &impl Print) -> io::Result<()> {
    print!(rt; "\n16:")?;
    print_measure(
        rt,
        nest_figures(&[[1, 2, 0], [0, 6, 5], [2, 2, 0], [0, 15, 11], [0, 6, 5]]),
    )?;
    print!(rt; "\nno nest:")?;
    print_measure(rt, nest_figures(&[[0; 3]; 0]))?;
    print_measure(rt, nest_figures(&[[2, 1, 0], [0, 6, 5]]))?;
    print_measure(rt, nest_figures(&[[1, 1, 0], [0, 6, 5], [0, 6, 5]]))?;
    print_measure(rt, nest_figures(&[[1, 2, 0], [0, 6, 5]]))?;
    print_measure(rt, nest_figures(&[[1, 1, 0], [0, 5, 6]]))?;
    print_measure(rt, nest_figures(&[[1, 17, 0], [0, 6, 5]]))?;
    print_measure(rt, nest_figures(&[[1, 1, 1], [0, 6, 5]]))?;
    print!(rt; "\n")
}

fn main(rt: HostRuntime) -> io::Result<()> {
    behind(&rt)?;
    all_beside(&rt)?;
    nests(&rt)
}
