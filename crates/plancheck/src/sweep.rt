// 16 and 17 answered "no" in one sweep over the subtasks in the order of their starts.
ghost use Rattle.std.specs.Prelude.{◌≡◌, ◌≤◌, length};
ghost use Rattle.theory.specs.Flags.{Shows};
ghost use Rattle.plancheck.specs.Sweeps.{SlackAt, ApartAndBusy};

use crate::placed::Placed;
use crate::read::{end_of, entry_of};
use crate::sort::in_order;
use terms::Subtask;

// The end of the latest slack before s: an instant is slack where some processor of 1..m is free.
fn slack_at(until: &[u32; 17], m: u32, s: u32, slack: u32) -> u32
    requires { (length until.now ≡ 17) × (m ≤ 16) }
    ensures { SlackAt until.now m s slack result }
{
    for p in 0..m as usize {
        if until[p + 1] < s {
            return s;
        }
    }
    slack
}

impl Placed<'_> {
    // Whether neither 16 nor 17 holds, as far as one sweep shows it: `true` is certain, `false` is not. The sweep goes along the subtasks in the
    // order of their starts. On it no subtask starts before the last one on its processor ends, nor is ready before the end of a slack. `until`
    // holds the end of the last subtask on each processor.
    pub fn passes_sweep(&self) -> bool
        ensures { Shows (ApartAndBusy self.now.times.now self.now.m self.now.plan.now self.now.ready.now) result }
    {
        let row = in_order(self.plan);
        let mut until = [0u32; 17];
        let mut before: u32 = 0;
        let mut slack: u32 = 0;
        for x in 0..self.times.len() {
            let subtask = Subtask(row[x] as usize % 256 + 1);
            if self.times.len() < subtask.0 {
                return false;
            }
            let entry = entry_of(self.plan, subtask);
            let p = usize::from(entry.processor.0);
            if entry.start < before || entry.start < until[p] {
                return false;
            }
            slack = slack_at(&until, self.m, entry.start, slack);
            if self.ready[subtask.0] < slack {
                return false;
            }
            until[p] = end_of(self.times, self.plan, subtask);
            before = entry.start;
        }
        true
    }
}
