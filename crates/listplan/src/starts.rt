// What starts next.
ghost use Rattle.std.specs.Prelude.{◌+◌, ◌≤◌};
ghost use Rattle.terms.specs.Graphs.{Among};
ghost use Rattle.theory.specs.First.{NoneBelow};
ghost use Rattle.listplan.specs.Making.{IsMarked, IsFree, NextStart};

use crate::holders::Holders;
use crate::marks::Marks;
use terms::Processor;

// A place of the order whose subtask can go, and the processor to which it goes.
#[derive(Clone, Copy)]
pub struct Start {
    pub place: usize,
    pub processor: Processor,
}

// The subtask that goes next, by its place in the order, and its processor. No processor before `free` is free, no place below `low` is marked.
pub fn next_start(
    marks: &Marks,
    low: usize,
    n: usize,
    holders: &Holders,
    m: usize,
    free: Processor,
) -> Option<Start>
    requires marks { (n ≤ 256) × NoneBelow (IsMarked marks.now) n low }
    requires holders { Among 1 16 m × (1 ≤ free.0) × NoneBelow (IsFree holders.now.who) (m + 1) free.0 }
    ensures { NextStart marks.now n holders.now.who m result }
{
    let processor = holders.first_free(m, free)?;
    let place = marks.first(low, n)?;
    Some(Start { place, processor })
}
