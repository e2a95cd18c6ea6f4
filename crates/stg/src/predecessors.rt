// What stands on a task's line behind its first three numbers: the predecessors. They give the arrows.
ghost use Rattle.std.specs.Prelude.{◌≡◌, [], ◌∷◌, ◌≤◌, ◌<◌, length};
ghost use Rattle.stg.specs.LinesRead.{clipped, Adds, PredecessorsOf};

use terms::Subtask;
use text::{Next, next_number};

// The row of arrows, and how many there are: those beyond the row are counted only.
#[derive(Drop)]
pub struct Arrows<'a> {
    pub row: &'a mut [[u16; 2]],
    pub count: usize,
}

// A predecessor as the row holds it: what 16 bits cannot hold is no subtask's number either way.
fn clip(predecessor: Subtask) -> u16
    ensures { result ≡ clipped predecessor.0 }
{
    u16::try_from(predecessor.0).unwrap_or(u16::MAX)
}

impl Arrows<'_> {
    // The arrow of a predecessor: 0 gives none.
    fn add(&mut self, from: Subtask, to: Subtask)
        requires { (to.0 < 65536) × (self.old.count < 18446744073709551615) }
        ensures { Adds to.0 (from.0 ∷ []) self.old self.new }
    {
        if from.0 == 0 {
            return;
        }
        if self.count < self.row.len() {
            self.row[self.count] = [clip(from), to.0 as u16];
        }
        self.count += 1;
    }
}

// The rest of a line: how many numbers it has, whether they are all below the task's index, and where the next line begins.
#[derive(Clone, Copy)]
pub struct Rest {
    pub count: usize,
    pub below: bool,
    pub next: usize,
}

// Goes along the rest of the line at `at`; each number on it is a predecessor of task i. Nothing where a piece of it is no number. (Each
// number says where the next one stands: no `for`.)
pub fn take_predecessors(text: &[u8], at: usize, i: usize, arrows: &mut Arrows) -> Option<Rest>
    requires { (at ≤ length text.now) × (i < 65536) × (arrows.old.count ≤ at) }
    ensures { PredecessorsOf text.now at i arrows.old arrows.new result }
{
    let mut here = at;
    let mut count: usize = 0;
    let mut below = true;
    loop {
        match next_number(text, here) {
            Next::Misshapen => return None,
            Next::LineEnd(next) => {
                return Some(Rest { count, below, next });
            }
            Next::Field(p, past) => {
                below &= p < i;
                arrows.add(Subtask(p), Subtask(i));
                here = past;
            }
        }
        count += 1;
    }
}
