// What a plan in the making holds, and where a plan ends.
#![tactic(auto)]

ghost use Rattle.std.specs.Prelude.{◌≡◌, min, length, replicate};
ghost use Rattle.terms.specs.Plans.{not_placed};
ghost use Rattle.forms.specs.Forms.{plan_end, last_end};

use inputs::time_of;
use terms::{Entry, Processor, Subtask};

// No instant: no plan runs so long.
pub const NEVER: u32 = 4294967295;

// What a plan in the making holds for a subtask that has not gone.
pub const NOT_PLACED: Entry = Entry {
    processor: Processor(0),
    start: 0,
};

// A table with nothing placed.
pub fn blank() -> [Entry; 256]
    ensures { result ≡ replicate 256 not_placed }
{
    [NOT_PLACED; 256]
}

// Where a plan ends: the largest start + time, 0 for rows with nothing in them.
pub fn plan_end(times: &[u16], plan: &[Entry]) -> u64
    ensures { result ≡ plan_end times.now plan.now (min (length times.now) (length plan.now)) }
{
    let mut end: u64 = 0;
    for i in 0..times.len().min(plan.len()) {
        let start = plan[i].start;
        end = end.max(u64::from(start) + u64::from(time_of(times, Subtask(i + 1))));
    }
    end
}

// The same of a plan whose starts stand in a row of numbers.
pub fn last_end(times: &[u16], starts: &[u32]) -> u64
    ensures { result ≡ last_end times.now starts.now (min (length times.now) (length starts.now)) }
{
    let mut end: u64 = 0;
    for i in 0..times.len().min(starts.len()) {
        end = end.max(u64::from(starts[i]) + u64::from(time_of(times, Subtask(i + 1))));
    }
    end
}
