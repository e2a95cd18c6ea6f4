// The refusals of a join, all of them asked before anything is put down.
ghost use Rattle.terms.specs.Joins.{graph_of};
ghost use Rattle.terms.specs.Replies.{IsCheck};
ghost use Rattle.joins.specs.Tables.{both_rows, made_rows};

use crate::graphs::Lent;
use graph::check;
use terms::{MOST_ARROWS, MOST_SUBTASKS, Refusal};

// 1 to 7 of the first, then of the second, then 30.
pub fn check_both(first: Lent<'_>, second: Lent<'_>) -> Result<(), Refusal>
    ensures { let a = graph_of first.entry.times.now first.entry.arrows.now in
        let b = graph_of second.entry.times.now second.entry.arrows.now in
        IsCheck (both_rows a b) result }
{
    check(first.times, first.arrows)?;
    check(second.times, second.arrows)?;
    if MOST_SUBTASKS < first.times.len() + second.times.len() {
        return Err(Refusal::JoinedSubtasks);
    }
    Ok(())
}

// 31, then 11, of so many subtasks and arrows.
pub fn check_made(n: usize, many: usize, times: usize, arrows: usize) -> Result<(), Refusal>
    ensures { IsCheck (made_rows n many times arrows) result }
{
    if MOST_ARROWS < many {
        return Err(Refusal::JoinedArrows);
    }
    if times < n || arrows < many {
        return Err(Refusal::Room);
    }
    Ok(())
}
