// The scans for 13 to 15. Each answers the first subtask that is so.
ghost use Rattle.std.specs.Prelude.{◌≡◌, ◌≤◌, ◌<◌, length, get_or};
ghost use Rattle.terms.specs.Graphs.{Among};
ghost use Rattle.terms.specs.Plans.{processor_of, start_of};
ghost use Rattle.theory.specs.Sound.{SoundGraph};
ghost use Rattle.theory.specs.First.{IsFirstSubtask};
ghost use Rattle.plancheck.specs.Known.{Timed, LatestEnds};

use crate::read::end_of;
use inputs::arrow_of;
use terms::{Arrow, Entry, LATEST_START, Subtask};

// 13: a processor outside 1..m.
pub fn first_misplaced(plan: &[Entry], m: u32) -> Option<Subtask>
    ensures { IsFirstSubtask (length plan.now) (λ j. ¬ Among 1 m (processor_of plan.now j)) result }
{
    let place = plan.iter().position(|entry| {
        let number = u32::from(entry.processor.0);
        number < 1 || m < number
    })?;
    Some(Subtask(place + 1))
}

// 14: a start above 16,776,960.
pub fn first_late(plan: &[Entry]) -> Option<Subtask>
    ensures { IsFirstSubtask (length plan.now) (λ j. 16776960 < start_of plan.now j) result }
{
    let place = plan.iter().position(|entry| LATEST_START < entry.start)?;
    Some(Subtask(place + 1))
}

// The latest end of a predecessor of each subtask, by its number; 0 where it has none.
pub fn latest_ends(times: &[u16], arrows: &[[u16; 2]], plan: &[Entry]) -> [u32; 257]
    requires { SoundGraph times.now arrows.now × Timed times.now plan.now }
    ensures { LatestEnds times.now arrows.now plan.now (length arrows.now) result }
{
    let mut ready = [0u32; 257];
    for ends in arrows {
        let Arrow { from, to } = arrow_of(ends);
        let end = end_of(times, plan, from);
        ready[to.0] = ready[to.0].max(end);
    }
    ready
}

// 15: a start before the latest end of a predecessor.
pub fn first_early(plan: &[Entry], ready: &[u32; 257]) -> Option<Subtask>
    requires { (length plan.now ≤ 256) × (length ready.now ≡ 257) }
    ensures { IsFirstSubtask (length plan.now) (λ j. start_of plan.now j < get_or ready.now j 0) result }
{
    for (place, entry) in plan.iter().enumerate() {
        if entry.start < ready[place + 1] {
            return Some(Subtask(place + 1));
        }
    }
    None
}
