// The arrows as chains, one for each subtask.
ghost use Rattle.std.specs.Prelude.{◌≡◌, ◌-◌, ◌≤◌, ◌<◌, length, get_or};
ghost use Rattle.terms.specs.Graphs.{from_of, to_of};
ghost use Rattle.graph.specs.Chains.{Tidy};
ghost use Rattle.graph.specs.Links.{IsEmpty, Linked};

use inputs::arrow_of;
use terms::Subtask;

// For each subtask the chain of the arrows into it, the latest first: `first` holds the position of that one, `next` of the one before it,
// and 0 ends a chain, since an `Option` of a position would take twice the room of fixed tables. `first` has 32 bits so that the two differ
// in width: a compiled walk then goes from `next` to `next` without a step between. (The arranged and listed chains have 16 bits in both,
// and no struct may be generic in the numbers of an array.)
#[derive(Drop)]
pub struct Links {
    pub first: [u32; 257],
    pub next: [u16; 2048],
}

impl Links {
    // No arrow is in a chain yet.
    pub fn none() -> Links
        ensures { IsEmpty result }
    {
        Links {
            first: [0; 257],
            next: [0; 2048],
        }
    }

    // All arrows, one after the other.
    pub fn link(&mut self, n: usize, arrows: &[[u16; 2]])
        requires tidy { Tidy n arrows.now }
        requires empty { IsEmpty self.old }
        ensures { Linked arrows.now self.new }
    {
        for (i, ends) in arrows.iter().enumerate() {
            let v = arrow_of(ends).to.0;
            self.next[i] = self.first[v] as u16;
            self.first[v] = (i + 1) as u32;
        }
    }
}

// The arrows of n subtasks and their chains: each arrow names two of the subtasks.
#[derive(Clone, Copy)]
pub struct Chained<'a> {
    pub n: usize,
    pub arrows: &'a [[u16; 2]],
    pub links: &'a Links,
    ghost tidy: { Tidy n arrows.now },
    ghost linked: { Linked arrows.now links.now },
}

impl<'a> Chained<'a> {
    // The position at which the chain of v begins.
    pub fn begin(&self, v: Subtask) -> usize
        requires { v.0 < 257 }
        ensures { result ≡ get_or self.now.links.now.first v.0 0 }
    {
        self.links.first[v.0] as usize
    }

    // The position that comes after c in its chain.
    pub fn after(&self, c: usize) -> usize
        requires { (1 ≤ c) × (c ≤ 2048) }
        ensures { result ≡ get_or self.now.links.now.next (c - 1) 0 }
    {
        usize::from(self.links.next[c - 1])
    }

    // The subtask from which the arrow at position c comes.
    pub fn source(&self, c: usize) -> Subtask
        requires { (1 ≤ c) × (c ≤ length self.now.arrows.now) }
        ensures { (result.0 ≡ from_of self.now.arrows.now (c - 1)) × (result.0 < 65536) }
    {
        arrow_of(&self.arrows[c - 1]).from
    }

    // The subtask to which it goes.
    pub fn sink(&self, c: usize) -> Subtask
        requires { (1 ≤ c) × (c ≤ length self.now.arrows.now) }
        ensures { (result.0 ≡ to_of self.now.arrows.now (c - 1)) × (result.0 < 65536) }
    {
        arrow_of(&self.arrows[c - 1]).to
    }
}
