// The list plan over a lent row of entries.
#![tactic(auto)]

mod events;
mod holders;
mod marks;
mod order;
mod rule;
mod starts;
mod tables;

ghost use Rattle.terms.specs.Replies.{IsListed};

use crate::order::is_order;
use crate::rule::make_plan;
use forms::plan_end;
use graph::check_on;
use terms::{Entry, Refusal};

// Writes the list plan to the row, and answers where it ends; or leaves the row as it was, and answers why.
pub fn list_plan(
    times: &[u16],
    arrows: &[[u16; 2]],
    m: u32,
    order: &[u16],
    plan: &mut [Entry],
) -> Result<u32, Refusal>
    ensures { IsListed times.now arrows.now m order.now plan.old plan.new result }
{
    check_on(times, arrows, m)?;
    if !is_order(times, order) {
        return Err(Refusal::Order);
    }
    let n = times.len();
    if plan.len() < n {
        return Err(Refusal::Room);
    }
    let row = &mut plan[..n];
    make_plan(times, arrows, m as usize, order, row);
    Ok(plan_end(times, row) as u32)
}
