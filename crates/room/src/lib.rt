// Bytes and numbers into a lent room, from a place on.
#![tactic(auto)]

ghost use Rattle.std.specs.Prelude.{◌≡◌, [], ◌∷◌, ◌≤◌, length};
ghost use Rattle.terms.specs.Writings.{decimal};
ghost use Rattle.room.specs.Puts.{Puts};

// How many digits a number has.
pub fn number_size(x: u32) -> usize
    ensures { (result ≡ length (decimal x)) × (1 ≤ result) × (result ≤ 10) }
{
    match x {
        0..=9 => 1,
        10..=99 => 2,
        100..=999 => 3,
        1000..=9999 => 4,
        10000..=99999 => 5,
        100000..=999999 => 6,
        1000000..=9999999 => 7,
        10000000..=99999999 => 8,
        100000000..=999999999 => 9,
        _ => 10,
    }
}

// A place in a lent room, where the next thing is put. What there is no room for is not put, and the place stays where it was.
#[derive(Drop)]
pub struct Pen<'a> {
    pub text: &'a mut [u8],
    pub at: usize,
}

impl Pen<'_> {
    // One byte.
    pub fn put_byte(&mut self, b: u8)
        ensures { Puts self.old (b ∷ []) self.new }
    {
        // the place is taken once: a byte that is put might be its own for all that the compiler knows
        let at = self.at;
        if at < self.text.len() {
            self.text[at] = b;
            self.at = at + 1;
        }
    }

    // A number, without leading zeros: its digits from the last to the first.
    pub fn put_number(&mut self, x: u32)
        ensures { Puts self.old (decimal x) self.new }
    {
        let size = number_size(x);
        let at = self.at;
        let text = &mut *self.text;
        if text.len().saturating_sub(at) < size {
            return;
        }
        let mut rest = x;
        for i in (at + 1..at + size).rev() {
            text[i] = b'0' + (rest % 10) as u8;
            rest /= 10;
        }
        text[at] = b'0' + rest as u8;
        self.at = at + size;
    }
}
