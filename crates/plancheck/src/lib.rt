// The plan check: 1 to 8 and 12 to 17 of a plan, and the plan's end.
#![tactic(auto)]

mod exact;
mod placed;
mod read;
mod scan;
mod sort;
mod sweep;

ghost use Rattle.terms.specs.Refusals.{check_rows};
ghost use Rattle.terms.specs.Replies.{IsCheck, IsChecked};
ghost use Rattle.plancheck.specs.Known.{Given};

use crate::placed::Placed;
use crate::scan::{first_early, first_late, first_misplaced, latest_ends};
use forms::plan_end;
use graph::check_on;
use terms::{Entry, Refusal, Subtask};

// Two subtasks, by their numbers.
#[derive(Clone, Copy)]
struct Pair {
    lower: Subtask,
    higher: Subtask,
}

// 13 to 17 of a plan, where none of 1 to 8 and 12 holds.
fn check_placing(times: &[u16], arrows: &[[u16; 2]], m: u32, plan: &[Entry]) -> Result<(), Refusal>
    requires { Given times.now arrows.now m plan.now }
    ensures { IsCheck (check_rows times.now arrows.now m plan.now) result }
{
    if let Some(subtask) = first_misplaced(plan, m) {
        return Err(Refusal::ProcessorOutside(subtask.0 as u32));
    }
    if let Some(subtask) = first_late(plan) {
        return Err(Refusal::StartLarge(subtask.0 as u32));
    }
    let ready = latest_ends(times, arrows, plan);
    if let Some(subtask) = first_early(plan, &ready) {
        return Err(Refusal::StartEarly(subtask.0 as u32));
    }
    let placed = Placed {
        times,
        plan,
        ready: &ready,
        m,
    };
    if placed.passes_sweep() {
        return Ok(());
    }
    if let Some(pair) = placed.first_sharing() {
        return Err(Refusal::Overlap(pair.lower.0 as u32, pair.higher.0 as u32));
    }
    if let Some(instant) = placed.earliest_idle() {
        return Err(Refusal::Idle(instant));
    }
    Ok(())
}

// The plan check of a plan: its end, or the refusal.
pub fn check_plan(
    times: &[u16],
    arrows: &[[u16; 2]],
    m: u32,
    plan: &[Entry],
) -> Result<u32, Refusal>
    ensures { IsChecked times.now arrows.now m plan.now result }
{
    check_on(times, arrows, m)?;
    if plan.len() != times.len() {
        return Err(Refusal::PlanLength);
    }
    check_placing(times, arrows, m, plan)?;
    Ok(plan_end(times, plan) as u32)
}
