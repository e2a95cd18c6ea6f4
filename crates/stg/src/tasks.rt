// The lines of the tasks. Those of the subtasks put their times and arrows into the two rows.
ghost use Rattle.std.specs.Prelude.{◌≡◌, ◌≤◌, ◌<◌, length};
ghost use Rattle.stg.specs.LinesRead.{TaskOf, SubtaskOf, SubtasksOf};

use super::numbers::number;
use super::predecessors::{Arrows, take_predecessors};
use terms::Refusal;

// A task's line: its time, whether its predecessors are all below its index, and where the next line begins.
#[derive(Clone, Copy)]
pub struct Task {
    pub time: usize,
    pub below: bool,
    pub next: usize,
}

// The line of task i: its index, its time, the number of its predecessors, and as many predecessors.
pub fn task_line(text: &[u8], at: usize, i: usize, arrows: &mut Arrows) -> Option<Task>
    requires { (at ≤ length text.now) × (i < 65536) × (arrows.old.count ≤ at) }
    ensures { TaskOf text.now at i arrows.old arrows.new result }
{
    let (index, past_index) = number(text, at)?;
    if index != i {
        return None;
    }
    let (time, past_time) = number(text, past_index)?;
    let (count, past_count) = number(text, past_time)?;
    let rest = take_predecessors(text, past_count, i, arrows)?;
    if count != rest.count {
        return None;
    }
    Some(Task {
        time,
        below: rest.below,
        next: rest.next,
    })
}

// The line of subtask j + 1; the place where the next line begins.
fn take_subtask(
    text: &[u8],
    at: usize,
    j: usize,
    times: &mut [u16],
    arrows: &mut Arrows,
) -> Result<usize, Refusal>
    requires { (at ≤ length text.now) × (j < 256) × (256 ≤ length times.old) × (arrows.old.count ≤ at) }
    ensures { SubtaskOf text.now at j times.old arrows.old times.new arrows.new result }
{
    let Some(line) = task_line(text, at, j + 1, arrows) else {
        return Err(Refusal::TaskLine);
    };
    let Ok(time) = u16::try_from(line.time) else {
        return Err(Refusal::TimeLarge);
    };
    times[j] = time;
    Ok(line.next)
}

// The lines of the n subtasks; the place where the next line begins.
pub fn take_subtasks(
    text: &[u8],
    at: usize,
    n: usize,
    times: &mut [u16],
    arrows: &mut Arrows,
) -> Result<usize, Refusal>
    requires { (at ≤ length text.now) × (n ≤ 256) × (256 ≤ length times.old) × (arrows.old.count ≡ 0) }
    ensures { SubtasksOf text.now at n times.old arrows.old times.new arrows.new result }
{
    let mut here = at;
    for j in 0..n {
        here = take_subtask(text, here, j, times, arrows)?;
    }
    Ok(here)
}
