// Reads an STG text from standard input, and prints C, P, S and the end of the list plan in the order 1..n for 1 to 4 processors.
#![tactic(auto)]

use forms::blank;
use inputs::order_by_number;
use listplan::list_plan;
use std::io;
use std::io::Read;
use stg::read_stg;
use terms::{Figures, Refusal};
use verdict::judge;

fn print_refusal(rt: &impl Print, refusal: Refusal) -> io::Result<()> {
    let number = refusal.number();
    print!(rt; "refused,{number}\n")
}

fn print_line(rt: &impl Print, m: u32, figures: Figures, end: u32) -> io::Result<()> {
    let Figures { c, p, s, .. } = figures;
    print!(rt; "{m},{c},{p},{s},{end}\n")
}

// One line of the table. An accepted graph is refused by neither call.
fn report(
    rt: &impl Print,
    times: &[u16],
    arrows: &[[u16; 2]],
    m: u32,
    order: &[u16],
) -> io::Result<()> {
    let answer = judge(times, arrows, m, 1);
    match list_plan(times, arrows, m, order, &mut blank()) {
        Ok(end) => print_line(rt, m, answer.figures, end),
        Err(refusal) => print_refusal(rt, refusal),
    }
}

fn table(rt: &impl Print, times: &[u16], arrows: &[[u16; 2]]) -> io::Result<()> {
    let all = order_by_number();
    let n = times.len();
    if 256 < n {
        return Ok(());
    }
    let order: &[u16] = &all[..n];
    print!(rt; "M,C,P,S,end\n")?;
    for m in 1..=4 {
        report(rt, times, arrows, m, order)?;
    }
    Ok(())
}

// The table of the text's graph, or the refusal.
fn run(rt: &impl Print, text: &[u8]) -> io::Result<()> {
    let mut times = [0u16; 256];
    let mut arrows = [[0u16; 2]; 2048];
    match read_stg(text, &mut times, &mut arrows) {
        Ok(size) => table(rt, &times[..size.subtasks], &arrows[..size.arrows]),
        Err(refusal) => print_refusal(rt, refusal),
    }
}

// One byte more than a text may have is enough to refuse a longer one.
fn main(rt: HostRuntime) -> io::Result<()> {
    let mut text = [0u8; 60001];
    let size = io::copy(&mut rt.stdin().take(60001), &mut &mut text[..])?;
    run(&rt, &text[..size.min(60001) as usize])
}
