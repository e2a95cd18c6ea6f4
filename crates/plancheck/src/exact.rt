// 16 and 17, asked exactly: every pair of subtasks, and 0 and every end.
ghost use Rattle.std.specs.Prelude.{◌≡◌, ℕ, ◌-◌, ◌<◌, length};
ghost use Rattle.terms.specs.Graphs.{IsSubtask};
ghost use Rattle.theory.specs.First.{IsFirstSubtask};
ghost use Rattle.theory.specs.Flags.{Says};
ghost use Rattle.plancheck.specs.Scans.{Clash, FirstClash, running_among, Idles, SomeIdles, Earliest};

use crate::Pair;
use crate::placed::Placed;
use crate::read::{end_of, entry_of};
use inputs::time_in;
use terms::Subtask;

impl Placed<'_> {
    // Whether j, after i, is on the same processor and each of them starts before the other ends. No test is left out, so that none of them
    // has to be guessed.
    fn clash(&self, i: Subtask, j: Subtask) -> bool
        requires { IsSubtask self.now.times.now i.0 × IsSubtask self.now.times.now j.0 × (i.0 < j.0) }
        ensures { Says (Clash self.now.times.now self.now.plan.now i.0 j.0) result }
    {
        let one = entry_of(self.plan, i);
        let other = entry_of(self.plan, j);
        (one.processor.0 == other.processor.0)
            & (one.start < end_of(self.times, self.plan, j))
            & (other.start < end_of(self.times, self.plan, i))
    }

    // The first subtask after i with which i shares an instant on its processor.
    fn first_clash(&self, i: Subtask) -> Option<Subtask>
        requires { IsSubtask self.now.times.now i.0 }
        ensures { IsFirstSubtask (length self.now.times.now) (Clash self.now.times.now self.now.plan.now i.0) result }
    {
        for place in i.0..self.times.len() {
            let j = Subtask(place + 1);
            if self.clash(i, j) {
                return Some(j);
            }
        }
        None
    }

    // 16: the two subtasks of the lowest numbers that share an instant on one processor.
    pub fn first_sharing(&self) -> Option<Pair>
        ensures { FirstClash self.now.times.now self.now.plan.now result }
    {
        for place in 0..self.times.len() {
            let lower = Subtask(place + 1);
            if let Some(higher) = self.first_clash(lower) {
                return Some(Pair { lower, higher });
            }
        }
        None
    }

    // How many subtasks run at t. What starts after t is by far more than any time behind it, counted round the 32 bits.
    fn running(&self, t: u32) -> u32
        ensures { result ≡ running_among t self.now.times.now self.now.plan.now }
    {
        let mut count: u32 = 0;
        for (place, entry) in self.plan.iter().enumerate() {
            let time = time_in(self.times[place]);
            count += u32::from(t.wrapping_sub(entry.start) < time);
        }
        count
    }

    // Whether a subtask is ready at t although a processor is free.
    fn some_idles(&self, t: u32) -> bool
        ensures { Says (SomeIdles self.now.times.now self.now.plan.now self.now.ready.now self.now.m t) result }
    {
        if self.m <= self.running(t) {
            return false;
        }
        for (place, entry) in self.plan.iter().enumerate() {
            if self.ready[place + 1] <= t && t < entry.start {
                return true;
            }
        }
        false
    }

    // The end of a subtask where it is before `found`, the earliest instant by those before it, and some subtask idles there; else `found`.
    fn earlier_idle(&self, subtask: Subtask, found: Option<u32>) -> Option<u32>
        requires subtask { IsSubtask self.now.times.now subtask.0 }
        requires earliest { Earliest self.now.times.now self.now.plan.now self.now.ready.now self.now.m (subtask.0 - 1) found }
        ensures { Earliest self.now.times.now self.now.plan.now self.now.ready.now self.now.m subtask.0 result }
    {
        let end = end_of(self.times, self.plan, subtask);
        if let Some(instant) = found {
            if instant <= end {
                return found;
            }
        }
        if self.some_idles(end) {
            return Some(end);
        }
        found
    }

    // 17: the earliest instant at which a subtask is ready and a processor is free.
    pub fn earliest_idle(&self) -> Option<u32>
        ensures { Earliest self.now.times.now self.now.plan.now self.now.ready.now self.now.m (length self.now.times.now) result }
    {
        if self.some_idles(0) {
            return Some(0);
        }
        let mut found = None;
        for place in 0..self.times.len() {
            found = self.earlier_idle(Subtask(place + 1), found);
        }
        found
    }
}
