// What the planner says of a text, held to the output that an independent implementation gave for it. A text that reads is written too, and
// what was written is held to the same output.
use forms::blank;
use inputs::order_by_number;
use listplan::list_plan;
use plancheck::check_plan;
use std::slice::Iter;
use stg::{read_stg, write_stg};
use terms::{Refusal, Verdict};
use verdict::judge;

// The next number of a stored output, up to the byte after it.
fn next_number(output: &mut Iter<'_, u8>) -> u32 {
    let mut value: u32 = 0;
    for b in output {
        if !b.is_ascii_digit() {
            return value;
        }
        value = value % 100000000 * 10 + u32::from(*b - 48);
    }
    value
}

// The figures of one line, as they were stored.
#[derive(Clone, Copy)]
pub struct Line {
    pub m: u32,
    pub c: u32,
    pub p: u32,
    pub s: u32,
    pub end: u32,
}

fn next_line(output: &mut Iter<'_, u8>) -> Line {
    Line {
        m: next_number(output),
        c: next_number(output),
        p: next_number(output),
        s: next_number(output),
        end: next_number(output),
    }
}

// The sure end of the stored S.
fn sure_end(s: u32, m: u32) -> u32 {
    if m == 0 {
        return 0;
    }
    s / m
}

// C, P and S, and the verdict against 1,000 microseconds, which follows from the stored S.
fn figures_agree(times: &[u16], arrows: &[[u16; 2]], line: Line) -> bool {
    let answer = judge(times, arrows, line.m, 1000);
    let figures = answer.figures;
    if figures.c != line.c || figures.p != line.p || figures.s != line.s {
        return false;
    }
    let end = u64::from(sure_end(line.s, line.m));
    match answer.outcome {
        Ok(Verdict::Fits(spare)) => end + u64::from(spare) == 1000,
        Ok(Verdict::Late(shortfall)) => end == 1000 + u64::from(shortfall),
        Err(_) => false,
    }
}

// The list plan's end, which the plan check gives too.
fn plan_agrees(times: &[u16], arrows: &[[u16; 2]], line: Line, order: &[u16]) -> bool {
    let mut room = blank();
    let plan = &mut room[..times.len().min(256)];
    list_plan(times, arrows, line.m, order, plan) == Ok(line.end)
        && check_plan(times, arrows, line.m, plan) == Ok(line.end)
}

// The lines for 1 to 4 processors, behind the header.
fn table_agrees(times: &[u16], arrows: &[[u16; 2]], output: &[u8]) -> bool {
    let all = order_by_number();
    let n = times.len();
    if 256 < n || output.len() < 12 {
        return false;
    }
    let mut lines = output[12..].iter();
    for m in 1..=4 {
        let line = next_line(&mut lines);
        if line.m != m
            || !figures_agree(times, arrows, line)
            || !plan_agrees(times, arrows, line, &all[..n])
        {
            return false;
        }
    }
    true
}

// Whether a graph that was written and read again has the same times and as many arrows, and the stored output says the same of it.
fn again_agrees(
    times: &[u16],
    count: usize,
    again: &[u16],
    arrows: &[[u16; 2]],
    output: &[u8],
) -> bool {
    arrows.len() == count && times == again && table_agrees(again, arrows, output)
}

// The same of its text.
fn reads_as(text: &[u8], times: &[u16], count: usize, output: &[u8]) -> bool {
    let mut again = [0u16; 256];
    let mut arrows = [[0u16; 2]; 2048];
    match read_stg(text, &mut again, &mut arrows) {
        Ok(size) => again_agrees(
            times,
            count,
            &again[..size.subtasks],
            &arrows[..size.arrows],
            output,
        ),
        Err(_) => false,
    }
}

// Whether the graph is still the same when it has been written and read again.
fn written_agrees(times: &[u16], arrows: &[[u16; 2]], output: &[u8]) -> bool {
    let mut text = [0u8; 12422];
    match write_stg(times, arrows, &mut text) {
        Ok(size) => size <= 12422 && reads_as(&text[..size], times, arrows.len(), output),
        Err(_) => false,
    }
}

// What is said of the graph, and of the graph written and read again.
fn graph_agrees(times: &[u16], arrows: &[[u16; 2]], output: &[u8]) -> bool {
    table_agrees(times, arrows, output) && written_agrees(times, arrows, output)
}

// "refused," and the number.
fn refusal_agrees(refusal: Refusal, output: &[u8]) -> bool {
    if output.len() < 9 || output[0] != b'r' {
        return false;
    }
    next_number(&mut output[8..].iter()) == u32::from(refusal.number())
}

// Whether the planner says of the text what the stored output says.
pub fn agrees(text: &[u8], output: &[u8]) -> bool {
    let mut times = [0u16; 256];
    let mut arrows = [[0u16; 2]; 2048];
    match read_stg(text, &mut times, &mut arrows) {
        Ok(size) => graph_agrees(&times[..size.subtasks], &arrows[..size.arrows], output),
        Err(refusal) => refusal_agrees(refusal, output),
    }
}
