// The list plan and the plan check over a lent row of entries.
#![tactic(auto)]

ghost use Rattle.terms.specs.Replies.{IsListed, IsChecked};

use terms::{Entry, Refusal};

// Where the plan ends, or why it is refused.
pub fn check_plan(
    times: &[u16],
    arrows: &[[u16; 2]],
    m: u32,
    plan: &[Entry],
) -> Result<u32, Refusal>
    ensures { IsChecked times.now arrows.now m plan.now result }
{
    plancheck::check_plan(times, arrows, m, plan)
}

// Writes the list plan to the row, and answers where it ends; or leaves the row as it was, and answers why.
pub fn list_plan(
    times: &[u16],
    arrows: &[[u16; 2]],
    m: u32,
    order: &[u16],
    plan: &mut [Entry],
) -> Result<u32, Refusal>
    ensures { IsListed times.now arrows.now m order.now plan.old plan.new result }
{
    listplan::list_plan(times, arrows, m, order, plan)
}
