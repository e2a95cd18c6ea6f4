// Who is on the processors.
ghost use Rattle.std.specs.Prelude.{◌≡◌, ◌+◌, ◌≤◌, ◌<◌, length, get_or, set, replicate};
ghost use Rattle.terms.specs.Graphs.{Among};
ghost use Rattle.theory.specs.First.{NoneBelow};
ghost use Rattle.forms.specs.Forms.{never};
ghost use Rattle.listplan.specs.Making.{IsFree, IsDue, FirstOf, Soonest};

use forms::NEVER;
use terms::{Processor, Subtask};

// The subtask on each processor, by its number, and its end: 0 and `NEVER` where nobody is on it. Place 0 is not used.
#[derive(Drop)]
pub struct Holders {
    pub until: [u32; 17],
    pub who: [u16; 17],
    ghost long: { (length until ≡ 17) × (length who ≡ 17) },
}

impl Holders {
    // Nobody is on a processor.
    pub fn none() -> Holders
        ensures { (result.until ≡ replicate 17 never) × (result.who ≡ replicate 17 0) }
    {
        Holders {
            until: [NEVER; 17],
            who: [0; 17],
        }
    }

    // The first of m processors with the soonest end.
    pub fn soonest(&self, m: usize) -> Processor
        requires { Among 1 16 m }
        ensures { Soonest self.now.until m result.0 }
    {
        let mut first: usize = 1;
        for p in 2..m + 1 {
            if self.until[p] < self.until[first] {
                first = p;
            }
        }
        Processor(first as u8)
    }

    // The first of m processors with an end by t. Those before `from` are known to end later.
    pub fn first_due(&self, m: usize, t: u32, from: usize) -> Option<Processor>
        requires { Among 1 16 m × (1 ≤ from) × NoneBelow (IsDue self.now.until t) (m + 1) from }
        ensures { FirstOf m (IsDue self.now.until t) result }
    {
        for p in from..m + 1 {
            if self.until[p] <= t {
                return Some(Processor(p as u8));
            }
        }
        None
    }

    // The first of m processors that nobody is on. Those before `from` are known to be busy.
    pub fn first_free(&self, m: usize, from: Processor) -> Option<Processor>
        requires { Among 1 16 m × (1 ≤ from.0) × NoneBelow (IsFree self.now.who) (m + 1) from.0 }
        ensures { FirstOf m (IsFree self.now.who) result }
    {
        for p in usize::from(from.0)..m + 1 {
            if self.who[p] == 0 {
                return Some(Processor(p as u8));
            }
        }
        None
    }

    // The subtask on a processor leaves it.
    pub fn leave(&mut self, processor: Processor) -> Subtask
        requires { processor.0 < 17 }
        ensures value { result.0 ≡ get_or self.old.who processor.0 0 }
        ensures after { (self.new.until ≡ set self.old.until processor.0 never) × (self.new.who ≡ set self.old.who processor.0 0) }
    {
        let p = usize::from(processor.0);
        let j = self.who[p];
        self.who[p] = 0;
        self.until[p] = NEVER;
        Subtask(usize::from(j))
    }

    // A subtask comes to a processor, until its end.
    pub fn enter(&mut self, subtask: Subtask, processor: Processor, end: u32)
        requires { (subtask.0 < 65536) × (processor.0 < 17) }
        ensures { (self.new.until ≡ set self.old.until processor.0 end) × (self.new.who ≡ set self.old.who processor.0 subtask.0) }
    {
        let p = usize::from(processor.0);
        self.who[p] = subtask.0 as u16;
        self.until[p] = end;
    }
}
