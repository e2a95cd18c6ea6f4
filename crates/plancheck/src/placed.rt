// A plan of which none of 1 to 8 and 12 to 15 holds.
ghost use Rattle.plancheck.specs.Sweeps.{Sweepable};

use terms::Entry;

// The times of a graph and a plan on m processors; and the latest end of a predecessor of each subtask, by its number, from which on it is
// ready.
#[derive(Clone, Copy)]
pub struct Placed<'a> {
    pub times: &'a [u16],
    pub plan: &'a [Entry],
    pub ready: &'a [u32; 257],
    pub m: u32,
    ghost sound: { Sweepable times.now m plan.now ready.now },
}
