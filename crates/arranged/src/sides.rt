// The two ends of an arrow.
ghost use Rattle.std.specs.Prelude.{◌≡◌};
ghost use Rattle.arranged.specs.Sides.{end, other_of};

use inputs::arrow_of;
use terms::Arrow;

// Where it comes from, or where it goes to.
#[derive(Clone, Copy)]
pub enum Side {
    From,
    To,
}

impl Side {
    pub fn other(self) -> Side
        ensures { result ≡ other_of self }
    {
        match self {
            Side::From => Side::To,
            Side::To => Side::From,
        }
    }

    // The subtask at this side of an arrow.
    pub fn of(self, ends: [u16; 2]) -> usize
        ensures { result ≡ end self ends }
    {
        let Arrow { from, to } = arrow_of(&ends);
        match self {
            Side::From => from.0,
            Side::To => to.0,
        }
    }
}
