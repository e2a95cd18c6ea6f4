// The lines that give no subtask: the first, the two dummies', and those that may follow the last task's.
ghost use Rattle.std.specs.Prelude.{◌≡◌, [], cond, ◌≤◌, ◌<◌, length, drop};
ghost use Rattle.terms.specs.Texts.{lines};
ghost use Rattle.terms.specs.declared.Refusal.TheVariants.{TaskLine};
ghost use Rattle.terms.specs.Readings.{refuse, graph, trailer, exit_line};
ghost use Rattle.stg.specs.LinesRead.{FirstOf, DummyOf, FollowerOf, OpeningOf, closed};

use super::numbers::{line_end, number};
use super::predecessors::Arrows;
use super::tasks::task_line;
use terms::{MOST_SUBTASKS, Refusal};
use text::line_after;

// How many subtasks there are, and where the next line begins.
#[derive(Clone, Copy)]
pub struct Opening {
    pub subtasks: usize,
    pub next: usize,
}

// The first line, which is nothing but the number of subtasks.
fn first_line(text: &[u8]) -> Result<Opening, Refusal>
    ensures { FirstOf text.now result }
{
    let Some((n, past_n)) = number(text, 0) else {
        return Err(Refusal::FirstLine);
    };
    let Some(next) = line_end(text, past_n) else {
        return Err(Refusal::FirstLine);
    };
    match n {
        1..=MOST_SUBTASKS => Ok(Opening { subtasks: n, next }),
        _ => Err(Refusal::FirstLine),
    }
}

// The line of dummy i: time 0, predecessors below i, so dummy 0 has none. Nobody reads the arrows. The place where the next line begins.
fn dummy_line(text: &[u8], at: usize, i: usize) -> Result<usize, Refusal>
    requires { (at ≤ length text.now) × (i < 65536) }
    ensures { DummyOf text.now at i result }
{
    let mut none = Arrows {
        row: &mut [],
        count: 0,
    };
    let Some(line) = task_line(text, at, i, &mut none) else {
        return Err(Refusal::TaskLine);
    };
    if line.time != 0 || !line.below {
        return Err(Refusal::DummyLine);
    }
    Ok(line.next)
}

// A blank line or a comment, after the last task's line: where the next line begins.
fn following_line(text: &[u8], at: usize) -> Option<usize>
    requires { at < length text.now }
    ensures { FollowerOf text.now at result }
{
    if text[at] == b'#' {
        return Some(line_after(text, at));
    }
    line_end(text, at)
}

// Whether only such lines stand from `at` on. (Each line says where the next one begins: no `for`.)
fn may_end(text: &[u8], at: usize) -> bool
    requires { at ≤ length text.now }
    ensures { trailer (lines (drop at text.now)) ≡ cond result (graph [] []) (refuse TaskLine) }
{
    let mut here = at;
    while here < text.len() {
        let Some(next) = following_line(text, here) else {
            return false;
        };
        here = next;
    }
    true
}

// The first line and the entry dummy's: the number of subtasks, and the place where their lines begin.
pub fn take_opening(text: &[u8]) -> Result<Opening, Refusal>
    ensures { OpeningOf text.now result }
{
    let first = first_line(text)?;
    let next = dummy_line(text, first.next, 0)?;
    Ok(Opening {
        subtasks: first.subtasks,
        next,
    })
}

// The line of the exit dummy, task i, and those that may follow.
pub fn take_closing(text: &[u8], at: usize, i: usize) -> Result<(), Refusal>
    requires { (at ≤ length text.now) × (i < 65536) }
    ensures { exit_line i (lines (drop at text.now)) ≡ closed result }
{
    let next = dummy_line(text, at, i)?;
    if !may_end(text, next) {
        return Err(Refusal::TaskLine);
    }
    Ok(())
}
