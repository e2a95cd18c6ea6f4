// How a subtask's entry and its end are read.
ghost use Rattle.std.specs.Prelude.{◌≡◌, length};
ghost use Rattle.terms.specs.Graphs.{Among, IsSubtask};
ghost use Rattle.terms.specs.Plans.{processor_of, start_of, end_of};
ghost use Rattle.plancheck.specs.Known.{Timed};

use inputs::time_of;
use terms::{Entry, Subtask};

pub fn entry_of(plan: &[Entry], subtask: Subtask) -> Entry
    requires { Among 1 (length plan.now) subtask.0 }
    ensures processor { result.processor.0 ≡ processor_of plan.now subtask.0 }
    ensures start { result.start ≡ start_of plan.now subtask.0 }
{
    plan[subtask.0 - 1]
}

pub fn end_of(times: &[u16], plan: &[Entry], subtask: Subtask) -> u32
    requires { IsSubtask times.now subtask.0 × Timed times.now plan.now }
    ensures { result ≡ end_of times.now plan.now subtask.0 }
{
    entry_of(plan, subtask).start + time_of(times, subtask)
}
