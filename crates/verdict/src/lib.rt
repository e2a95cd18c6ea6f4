// S, the sure end, the load, fits or late.
#![tactic(auto)]

ghost use Rattle.std.specs.Prelude.{◌≡◌, false, ◌/◌, ◌≤◌, Err};
ghost use Rattle.std.specs.Float.{binary32};
ghost use Rattle.std.specs.Float.Ieee.{round};
ghost use Rattle.terms.specs.Graphs.{Among};
ghost use Rattle.terms.specs.Verdicts.{no_figures};
ghost use Rattle.terms.specs.Refusals.{verdict_rows};
ghost use Rattle.terms.specs.Replies.{IsAnswer, IsMeasure};
ghost use Rattle.verdict.specs.Judges.{Askable, Judges};

use graph::measure_on;
use limits::check_deadline;
use terms::{Answer, Figures, Refusal, Verdict, Weights};

// The load: neither cast changes its number, so the quotient is rounded once.
fn load(work: u32, room: u32) -> f32
    requires { Among 1 16776960 work × Among 1 16776960 room }
    ensures { result ≡ round binary32 false work room }
{
    work as f32 / (room as f32)
}

// The sure end: S / M rounded down.
fn sure_end(s: u32, m: u32) -> u32
    requires { 1 ≤ m }
    ensures { result ≡ s / m }
{
    s / m
}

// With a refusal all figures are 0, and no verdict is given.
fn refused(refusal: Refusal) -> Answer
    ensures { (result.figures ≡ no_figures) × (result.outcome ≡ Err refusal) }
{
    let figures = Figures {
        c: 0,
        p: 0,
        s: 0,
        load: 0.0,
    };
    Answer {
        figures,
        outcome: Err(refusal),
    }
}

// The verdict of C and P, on m processors with deadline d.
fn verdict_of(weights: Weights, m: u32, d: u32) -> Answer
    requires { Askable weights.c weights.p m d }
    ensures { Judges weights.c weights.p m d result }
{
    let Weights { c, p } = weights;
    let s = c + (m - 1) * p;
    let end = sure_end(s, m);
    let room = m * d;
    let figures = Figures {
        c,
        p,
        s,
        load: load(c, room),
    };
    if end <= d {
        Answer {
            figures,
            outcome: Ok(Verdict::Fits(d - end)),
        }
    } else {
        Answer {
            figures,
            outcome: Ok(Verdict::Late(end - d)),
        }
    }
}

// C and P of a graph, where the question is refused by none of 1 to 9.
fn ask(times: &[u16], arrows: &[[u16; 2]], m: u32, d: u32) -> Result<Weights, Refusal>
    ensures { IsMeasure (verdict_rows times.now arrows.now m d) times.now arrows.now result }
{
    let weights = measure_on(times, arrows, m)?;
    check_deadline(d)?;
    Ok(weights)
}

// The answer to a deadline question, on m processors with deadline d.
pub fn judge(times: &[u16], arrows: &[[u16; 2]], m: u32, d: u32) -> Answer
    ensures { IsAnswer times.now arrows.now m d result }
{
    match ask(times, arrows, m, d) {
        Ok(weights) => verdict_of(weights, m, d),
        Err(refusal) => refused(refusal),
    }
}
