// The marks of the places of the order.
ghost use Rattle.std.specs.Prelude.{◌≡◌, ◌≤◌, ◌<◌, List, Bool, true, false, length, set, replicate};
ghost use Rattle.theory.specs.First.{NoneBelow};
ghost use Rattle.listplan.specs.Tables.{Grouped};
ghost use Rattle.listplan.specs.Making.{IsMarked, FirstMark};

use std::marker::Model;

// Whether each place is marked; and for each group of sixteen places whether one of them may be, so that a search can pass over a group.
#[derive(Drop)]
pub struct Marks {
    places: [bool; 256],
    groups: [bool; 16],
}

impl Model for Marks {
    ghost Value = { List Bool };

    ghost view = { λ m. m.places };

    ghost invariant = { λ m. (length m.places ≡ 256) × Grouped m.places m.groups };
}

impl Marks {
    // No place is marked.
    pub fn none() -> Marks
        ensures { result ≡ replicate 256 false }
    {
        Marks {
            places: [false; 256],
            groups: [false; 16],
        }
    }

    // Marks a place.
    pub fn mark(&mut self, x: usize)
        requires { x < 256 }
        ensures { self.new ≡ set self.old x true }
    {
        self.places[x] = true;
        self.groups[x / 16] = true;
    }

    // The first of the first n places that is marked. Those below `low` are known not to be. (Groups are passed over: no `for` has that step.)
    pub fn first(&self, low: usize, n: usize) -> Option<usize>
        requires { (n ≤ 256) × NoneBelow (IsMarked self.now) n low }
        ensures { FirstMark self.now n result }
    {
        let mut x = low;
        while x < n {
            if !self.groups[x / 16] {
                x = x / 16 * 16 + 16;
            } else if self.places[x] {
                return Some(x);
            } else {
                x += 1;
            }
        }
        None
    }

    // Takes the mark off the first place that has one.
    pub fn unmark(&mut self, x: usize)
        requires { (x < 256) × NoneBelow (IsMarked self.old) 256 x }
        ensures { self.new ≡ set self.old x false }
    {
        self.places[x] = false;
        let end = x / 16 * 16 + 16;
        if !self.places[x + 1..end].contains(&true) {
            self.groups[x / 16] = false;
        }
    }
}
