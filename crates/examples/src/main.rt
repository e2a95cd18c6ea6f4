// Runs the worked examples of docs/PLANNER.md. What each must say stands in the file `stdout`.
#![tactic(auto)]

ghost use Rattle.std.specs.Prelude.{◌≡◌, length};

use forms::blank;
use graph::{longest_path, total_work};
use listplan::list_plan;
use plancheck::check_plan;
use std::io;
use stg::read_stg;
use terms::{Answer, Entry, Processor, Refusal, Verdict};
use text::next_field;
use verdict::judge;

// The number, the place and the second number.
fn print_refusal(rt: &impl Print, refusal: Refusal) -> io::Result<()> {
    let (number, place, second) = (refusal.number(), refusal.place(), refusal.second());
    print!(rt; " refused,{number},{place},{second}")
}

fn print_amount(rt: &impl Print, reply: Result<u32, Refusal>) -> io::Result<()> {
    match reply {
        Ok(value) => print!(rt; " {value}"),
        Err(refusal) => print_refusal(rt, refusal),
    }
}

fn print_end(rt: &impl Print, reply: Result<u32, Refusal>) -> io::Result<()> {
    match reply {
        Ok(end) => print!(rt; " ends,{end}"),
        Err(refusal) => print_refusal(rt, refusal),
    }
}

// S, then fits and the spare, or late and the shortfall.
fn print_answer(rt: &impl Print, answer: Answer) -> io::Result<()> {
    let s = answer.figures.s;
    match answer.outcome {
        Ok(Verdict::Fits(spare)) => print!(rt; " S,{s} fits,{spare}"),
        Ok(Verdict::Late(shortfall)) => print!(rt; " S,{s} late,{shortfall}"),
        Err(refusal) => print_refusal(rt, refusal),
    }
}

fn at(processor: u8, start: u32) -> Entry {
    Entry {
        processor: Processor(processor),
        start,
    }
}

// C and P.
fn measured(rt: &impl Print, times: &[u16], arrows: &[[u16; 2]]) -> io::Result<()> {
    print_amount(rt, total_work(times, arrows))?;
    print_amount(rt, longest_path(times, arrows))
}

// The answer to a deadline question.
fn judged(rt: &impl Print, times: &[u16], arrows: &[[u16; 2]], m: u32, d: u32) -> io::Result<()> {
    print_answer(rt, judge(times, arrows, m, d))
}

// The end of the list plan, for a row of so many entries.
fn listed(
    rt: &impl Print,
    times: &[u16],
    arrows: &[[u16; 2]],
    m: u32,
    order: &[u16],
    room: usize,
) -> io::Result<()> {
    print_end(
        rt,
        list_plan(times, arrows, m, order, &mut blank()[..room.min(256)]),
    )
}

// The check of a plan of two entries, and of one.
fn checked(
    rt: &impl Print,
    times: &[u16],
    arrows: &[[u16; 2]],
    m: u32,
    first: Entry,
    second: Entry,
) -> io::Result<()> {
    print_end(rt, check_plan(times, arrows, m, &[first, second]))
}

fn checked_alone(
    rt: &impl Print,
    times: &[u16],
    arrows: &[[u16; 2]],
    m: u32,
    entry: Entry,
) -> io::Result<()> {
    print_end(rt, check_plan(times, arrows, m, &[entry]))
}

// Example 2: every time of G shorter by 1.
fn shorter_g(rt: &impl Print, arrows: &[[u16; 2]], order: &[u16]) -> io::Result<()> {
    let times = [2u16, 1, 1, 1, 3, 3, 3, 3, 8];
    print!(rt; "\n2:")?;
    measured(rt, &times, arrows)?;
    judged(rt, &times, arrows, 3, 15)?;
    listed(rt, &times, arrows, 3, order, 9)
}

// Example 4: G with two arrows fewer.
fn fewer_arrows(rt: &impl Print, times: &[u16], order: &[u16]) -> io::Result<()> {
    let arrows = [[1u16, 9], [4, 7], [4, 8]];
    print!(rt; "\n4:")?;
    listed(rt, times, &arrows, 3, order, 9)
}

// Examples 1 to 5, around G.
fn around_g(rt: &impl Print, times: &[u16], arrows: &[[u16; 2]], order: &[u16]) -> io::Result<()> {
    print!(rt; "1:")?;
    measured(rt, times, arrows)?;
    listed(rt, times, arrows, 3, order, 9)?;
    shorter_g(rt, arrows, order)?;
    print!(rt; "\n3:")?;
    judged(rt, times, arrows, 4, 18)?;
    listed(rt, times, arrows, 4, order, 9)?;
    fewer_arrows(rt, times, order)?;
    print!(rt; "\n5:")?;
    judged(rt, times, arrows, 3, 20)?;
    judged(rt, times, arrows, 3, 19)?;
    judged(rt, times, arrows, 3, 18)
}

fn graph_g(rt: &impl Print) -> io::Result<()> {
    let times = [3u16, 2, 2, 2, 4, 4, 4, 4, 9];
    let arrows = [[1u16, 9], [4, 5], [4, 6], [4, 7], [4, 8]];
    let order = [1u16, 2, 3, 4, 5, 6, 7, 8, 9];
    around_g(rt, &times, &arrows, &order)
}

// Examples 6 and 7.
fn small_verdicts(rt: &impl Print, fives: &[u16], none: &[[u16; 2]]) -> io::Result<()> {
    print!(rt; "\n6:")?;
    judged(rt, fives, none, 2, 8)?;
    judged(rt, fives, none, 2, 7)?;
    judged(rt, fives, none, 2, 6)?;
    print!(rt; "\n7:")?;
    judged(rt, &[1], none, 16, 1)
}

// Example 8.
fn one_arrow(rt: &impl Print, pair: &[u16], arrow: &[[u16; 2]]) -> io::Result<()> {
    print!(rt; "\n8:")?;
    measured(rt, pair, arrow)?;
    judged(rt, pair, arrow, 2, 7)?;
    checked(rt, pair, arrow, 2, at(1, 0), at(1, 3))?;
    checked(rt, pair, arrow, 2, at(1, 0), at(1, 2))
}

// Examples 9 and 10.
fn small_plans(rt: &impl Print, fives: &[u16], none: &[[u16; 2]]) -> io::Result<()> {
    print!(rt; "\n9:")?;
    checked_alone(rt, &[3], none, 1, at(1, 1))?;
    print!(rt; "\n10:")?;
    checked(rt, fives, none, 2, at(1, 0), at(1, 5))?;
    checked(rt, fives, none, 1, at(1, 0), at(1, 5))
}

// The arrows of 256 subtasks in one chain.
fn chain() -> [[u16; 2]; 255]
    ensures { length result ≡ 255 }
{
    let mut arrows = [[0u16; 2]; 255];
    for j in 0..255u16 {
        arrows[usize::from(j)] = [j + 1, j + 2];
    }
    arrows
}

// Example 11.
fn longest_chain(rt: &impl Print) -> io::Result<()> {
    let times = [65535u16; 256];
    let arrows = chain();
    print!(rt; "\n11:")?;
    judged(rt, &times, &arrows, 16, 1000000)
}

// Example 12.
fn refused_graphs(rt: &impl Print) -> io::Result<()> {
    print!(rt; "\n12:")?;
    print_amount(rt, longest_path(&[1, 1], &[[1, 2], [2, 1]]))?;
    let none = [0u16; 0];
    print_amount(rt, total_work(&none, &[[1, 2]]))?;
    print_amount(rt, total_work(&[1, 1], &[[1, 1], [1, 1]]))
}

// Example 14.
fn long_last(rt: &impl Print, none: &[[u16; 2]]) -> io::Result<()> {
    let times = [1u16, 1, 1, 1, 1, 1, 3, 1];
    print!(rt; "\n14:")?;
    judged(rt, &times, none, 3, 5)?;
    listed(rt, &times, none, 3, &[1, 2, 3, 4, 5, 6, 7, 8], 8)
}

// The refusals that neither the texts nor the examples meet: those of a question,
fn refused_questions(rt: &impl Print, fives: &[u16], none: &[[u16; 2]]) -> io::Result<()> {
    print!(rt; "\n8:")?;
    judged(rt, fives, none, 17, 8)?;
    print!(rt; "\n9:")?;
    judged(rt, fives, none, 2, 0)?;
    print!(rt; "\n10:")?;
    listed(rt, fives, none, 2, &[1, 1], 2)?;
    print!(rt; "\n11:")?;
    listed(rt, fives, none, 2, &[1, 2], 1)
}

// of a row that is too short to be read into,
fn refused_rows(rt: &impl Print) -> io::Result<()> {
    let mut times = [7u16; 255];
    let mut arrows = [[7u16; 2]; 2048];
    match read_stg(b"1\n0 0 0\n1 5 0\n2 0 0\n", &mut times, &mut arrows) {
        Ok(_) => print!(rt; " read"),
        Err(refusal) => print_refusal(rt, refusal),
    }
}

// and of a plan.
fn refused_plans(rt: &impl Print, fives: &[u16], none: &[[u16; 2]]) -> io::Result<()> {
    print!(rt; "\n12:")?;
    checked_alone(rt, fives, none, 2, at(1, 0))?;
    print!(rt; "\n13:")?;
    checked(rt, fives, none, 2, at(1, 0), at(3, 0))?;
    print!(rt; "\n14:")?;
    checked(rt, fives, none, 2, at(1, 0), at(2, 16776961))?;
    print!(rt; "\n16:")?;
    checked(rt, fives, none, 2, at(1, 0), at(1, 4))?;
    print!(rt; "\n")
}

// The next field of a text, as the piece of it that holds the digits.
fn next_piece(rt: &impl Print) -> io::Result<()> {
    print!(rt; "next field ")?;
    rt.write_all(next_field(b" \t12 3", 2))?;
    print!(rt; "\n")
}

fn main(rt: HostRuntime) -> io::Result<()> {
    let fives = [5u16, 5];
    let none = [[0u16; 2]; 0];
    graph_g(&rt)?;
    small_verdicts(&rt, &fives, &none)?;
    one_arrow(&rt, &[3, 4], &[[1, 2]])?;
    small_plans(&rt, &fives, &none)?;
    longest_chain(&rt)?;
    refused_graphs(&rt)?;
    long_last(&rt, &none)?;
    print!(&rt; "\nrefusals")?;
    refused_questions(&rt, &fives, &none)?;
    refused_rows(&rt)?;
    refused_plans(&rt, &fives, &none)?;
    next_piece(&rt)
}
