// What stands next on a line, where only one kind of it will do.
ghost use Rattle.std.specs.Prelude.{◌≤◌, length};
ghost use Rattle.stg.specs.Numbers.{NumberOf, LineEndOf};

use text::{Next, next_number};

// A number, and the place behind it.
pub fn number(text: &[u8], at: usize) -> Option<(usize, usize)>
    requires { at ≤ length text.now }
    ensures { NumberOf text.now at result }
{
    match next_number(text, at) {
        Next::Field(number, past) => Some((number, past)),
        _ => None,
    }
}

// The line's end: the place where the next line begins.
pub fn line_end(text: &[u8], at: usize) -> Option<usize>
    requires { at ≤ length text.now }
    ensures { LineEndOf text.now at result }
{
    match next_number(text, at) {
        Next::LineEnd(next) => Some(next),
        _ => None,
    }
}
