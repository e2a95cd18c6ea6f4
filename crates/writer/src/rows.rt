// The rows of predecessors, out of their two tables.
ghost use Rattle.std.specs.Prelude.{◌≡◌, ◌∷◌, ◌≤◌, length};
ghost use Rattle.terms.specs.Arrangements.{row_of};
ghost use Rattle.terms.specs.Writings.{with_count};
ghost use Rattle.writer.specs.Lines.{HasRow};

// The predecessors of subtask j are the numbers from `begins[j - 1]` up to `begins[j]`.
#[derive(Clone, Copy)]
pub struct Predecessors<'a> {
    pub begins: &'a [u16],
    pub numbers: &'a [u16],
}

impl<'a> Predecessors<'a> {
    // Those of subtask j.
    fn of(&self, j: usize) -> &'a [u16]
        requires { HasRow self.now.begins.now self.now.numbers.now j }
        ensures { (result.now ≡ row_of self.now.begins.now self.now.numbers.now j) × (length result.now ≤ length self.now.numbers.now) }
    {
        let from = usize::from(self.begins[j - 1]);
        let to = usize::from(self.begins[j]);
        &self.numbers[from..to]
    }

    // And as its line shows them: the predecessor 0 where there is no other.
    pub fn shown(&self, j: usize) -> &'a [u16]
        requires { HasRow self.now.begins.now self.now.numbers.now j × (length self.now.numbers.now ≤ 2048) }
        ensures { (length result.now ∷ result.now ≡ with_count (row_of self.now.begins.now self.now.numbers.now j)) × (length result.now ≤ 2048) }
    {
        match self.of(j) {
            [] => &[0],
            row => row,
        }
    }
}
