// How many subtasks, arrows and processors there may be, and which times and deadlines: 1, 2, 3, 8 and 9 of the table.
#![tactic(auto)]

ghost use Rattle.std.specs.Prelude.{◌≡◌, ◌==◌, length, position};
ghost use Rattle.terms.specs.Refusals.{subtask_rows, size_rows, processor_rows, deadline_rows};
ghost use Rattle.terms.specs.Replies.{IsCheck};
ghost use Rattle.theory.specs.Flags.{Says};
ghost use Rattle.limits.specs.Times.{AllTakeTime};

use inputs::time_in;
use terms::{LONGEST_DEADLINE, MOST_ARROWS, MOST_PROCESSORS, MOST_SUBTASKS, Refusal, Subtask};

// 2: whether every subtask takes some time. None ends the loop early, so that many are looked at together.
fn all_take_time(times: &[u16]) -> bool
    ensures { Says (AllTakeTime (length times.now) times.now) result }
{
    let mut all = true;
    for time in times {
        all &= time_in(*time) != 0;
    }
    all
}

// 2: the place of the first time that is 0.
fn first_nought(times: &[u16]) -> Option<usize>
    ensures { result ≡ position (λ time. time == 0) times.now }
{
    times.iter().position(|time| time_in(*time) == 0)
}

// 1 and 2.
pub fn check_subtasks(times: &[u16]) -> Result<(), Refusal>
    ensures { IsCheck (subtask_rows times.now) result }
{
    let n = times.len();
    if n < 1 || MOST_SUBTASKS < n {
        return Err(Refusal::SubtaskCount);
    }
    if all_take_time(times) {
        return Ok(());
    }
    match first_nought(times) {
        Some(place) => Err(Refusal::TimeZero(place as u32 + 1)),
        None => Ok(()),
    }
}

// 3.
pub fn check_size(arrows: &[[u16; 2]]) -> Result<(), Refusal>
    ensures { IsCheck (size_rows arrows.now) result }
{
    if MOST_ARROWS < arrows.len() {
        return Err(Refusal::ArrowCount);
    }
    Ok(())
}

// 8.
pub fn check_processors(m: u32) -> Result<(), Refusal>
    ensures { IsCheck (processor_rows m) result }
{
    if m < 1 || MOST_PROCESSORS < m {
        return Err(Refusal::ProcessorCount);
    }
    Ok(())
}

// 9.
pub fn check_deadline(d: u32) -> Result<(), Refusal>
    ensures { IsCheck (deadline_rows d) result }
{
    if d < 1 || LONGEST_DEADLINE < d {
        return Err(Refusal::Deadline);
    }
    Ok(())
}
