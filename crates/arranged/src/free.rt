// Those that no arrow has at one side: by where arrows come from the subtasks without successors, by where they go to those without
// predecessors.
ghost use Rattle.std.specs.Prelude.{min, length};
ghost use Rattle.arranged.specs.Free.{free_of, Marks, IsFront};

use crate::sides::Side;

// Of each number up to 256 whether no arrow has it at this side. Of higher numbers nothing is kept.
fn mark_free(arrows: &[[u16; 2]], side: Side) -> [bool; 258]
    ensures { Marks side arrows.now (length arrows.now) result }
{
    let mut free = [true; 258];
    for &ends in arrows {
        free[side.of(ends).min(257)] = false;
    }
    free
}

// Puts those of 1..n to the front of the lent row and answers how many they are.
pub fn list_free(n: usize, arrows: &[[u16; 2]], side: Side, list: &mut [u16; 256]) -> usize
    ensures { IsFront (free_of side arrows.now (min n 256)) list.old list.new result }
{
    let free = mark_free(arrows, side);
    let mut count: usize = 0;
    for j in 1..=n.min(256) {
        if free[j] {
            list[count] = j as u16;
            count += 1;
        }
    }
    count
}
