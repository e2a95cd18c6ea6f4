// The fields, numbers and lines of a text, from a place in it on. A place past the end is as good as the end.
#![tactic(auto)]

ghost use Rattle.std.specs.Prelude.{◌≡◌, true, ◌<◌, ◌≤◌, ◌+◌, length, drop};
ghost use Rattle.terms.specs.Texts.{all_pass, is_blank, is_digit, value, blanks, digits};
ghost use Rattle.text.specs.Steps.{line_size, no_number, next_number};

// What stands next on a line: its end, and where the next line begins; a piece that is no number; or a number, and the place behind it.
#[derive(Clone, Copy)]
pub enum Next {
    LineEnd(usize),
    Misshapen,
    Field(usize, usize),
}

// A space or a tab.
fn is_blank(b: u8) -> bool
    ensures { result ≡ is_blank b }
{
    matches!(b, b' ' | b'\t')
}

// The first place from `at` on that holds no space and no tab.
fn blanks_end(text: &[u8], at: usize) -> usize
    ensures { result ≡ at + blanks (drop at text.now) }
{
    for i in at..text.len() {
        if !is_blank(text[i]) {
            return i;
        }
    }
    at.max(text.len())
}

// The first place from `at` on that holds no digit.
fn digits_end(text: &[u8], at: usize) -> usize
    ensures { result ≡ at + length (digits (drop at text.now)) }
{
    for i in at..text.len() {
        if !text[i].is_ascii_digit() {
            return i;
        }
    }
    at.max(text.len())
}

// The place where the line after the one at `at` begins.
pub fn line_after(text: &[u8], at: usize) -> usize
    ensures { result ≡ at + line_size (drop at text.now) }
{
    for i in at..text.len() {
        if text[i] == b'\n' {
            return i + 1;
        }
    }
    at.max(text.len())
}

// The field that stands at `at`: its digits, as that piece of the lent text; nothing where no digit stands.
pub fn next_field(text: &[u8], at: usize) -> &[u8]
    ensures { result.now ≡ digits (drop at text.now) }
{
    let end = digits_end(text, at);
    if end == at { &[] } else { &text[at..end] }
}

// The number of a field. Its first digit stands before the loop, as many fields have no other.
fn value_of(field: &[u8]) -> usize
    requires { (1 ≤ length field.now) × (length field.now ≤ 8) × (all_pass is_digit field.now ≡ true) }
    ensures { result ≡ value field.now }
{
    let mut number = usize::from(field[0] - b'0');
    for b in &field[1..] {
        number = number * 10 + usize::from(*b - b'0');
    }
    number
}

// What stands at `at`, where no digit and no space or tab is: the line's end (nothing, LF, or CR and LF), or a piece that is no number.
fn no_number(text: &[u8], at: usize) -> Next
    ensures { result ≡ no_number at (drop at text.now) }
{
    let Some(rest) = text.get(at..) else {
        return Next::LineEnd(at);
    };
    match rest {
        [] => Next::LineEnd(at),
        [b'\n', ..] => Next::LineEnd(at + 1),
        [b'\r', b'\n', ..] => Next::LineEnd(at + 2),
        _ => Next::Misshapen,
    }
}

// What stands next on the line at `at`: the field is taken as a piece of the text, then read as a number. What stands behind its digits is
// met by the next call, also where it is neither a blank nor the line's end.
#[inline(always)]
pub fn next_number(text: &[u8], at: usize) -> Next
    ensures { result ≡ next_number at (drop at text.now) }
{
    let start = blanks_end(text, at);
    let field = next_field(text, start);
    match field.len() {
        0 => no_number(text, start),
        1..=8 => Next::Field(value_of(field), start + field.len()),
        _ => Next::Misshapen,
    }
}
