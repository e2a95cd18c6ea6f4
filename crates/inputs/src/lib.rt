// What is read out of the rows that callers lend: arrows, times and the entries of an order, each as its kind of number. Every place of a
// row may be asked for: outside it stands 0. And numbers in wider types, the larger of two, and an order to lend.
#![tactic(auto)]

ghost use Rattle.std.specs.Prelude.{◌≡◌, ℕ, ◌+◌, ◌<◌, max, length, get_or};
ghost use Rattle.terms.specs.Graphs.{from_of, to_of};
ghost use Rattle.inputs.specs.Lent.{IsTimeOf, IsArrowOf, IsArrowAt};

use terms::{Arrow, Subtask};

// The planner itself calls the library's `from` and `max` in place of the next five, which docs/STATEMENTS.md promises to callers.

pub fn usize_from_u8(byte: u8) -> usize
    ensures { (result ≡ byte) × (result < 256) }
{
    usize::from(byte)
}

pub fn usize_from_u16(short: u16) -> usize
    ensures { (result ≡ short) × (result < 65536) }
{
    usize::from(short)
}

pub fn usize_from_u32(word: u32) -> usize
    ensures { result ≡ word }
{
    word as usize
}

pub fn u32_from_u16(x: u16) -> u32
    ensures { (result ≡ x) × (result < 65536) }
{
    u32::from(x)
}

// The larger of two numbers.
pub fn larger(a: u32, b: u32) -> u32
    ensures { result ≡ max a b }
{
    a.max(b)
}

// The time that an entry of a row of times holds.
pub fn time_in(held: u16) -> u32
    ensures { (result ≡ held) × (result < 65536) }
{
    u32::from(held)
}

// The arrow of the two ends that an entry of a row of arrows holds.
pub fn arrow_of(ends: &[u16; 2]) -> Arrow
    ensures { IsArrowOf ends.now result }
{
    let [from, to] = *ends;
    Arrow {
        from: Subtask(usize::from(from)),
        to: Subtask(usize::from(to)),
    }
}

// The subtask that an entry of an order names.
pub fn subtask_in(held: u16) -> Subtask
    ensures { (result.0 ≡ held) × (result.0 < 65536) }
{
    Subtask(usize::from(held))
}

// The time of a subtask, and 0 for a number that is none: docs/STATEMENTS.md promises a number, as of the four below, so no `Option`.
pub fn time_of(times: &[u16], subtask: Subtask) -> u32
    ensures { IsTimeOf times.now subtask.0 result }
{
    let j = subtask.0;
    if j < 1 || times.len() < j {
        return 0;
    }
    time_in(times[j - 1])
}

// The arrow at a place of the row.
pub fn arrow_at(arrows: &[[u16; 2]], place: usize) -> Arrow
    ensures { IsArrowAt arrows.now place result }
{
    if arrows.len() <= place {
        return Arrow {
            from: Subtask(0),
            to: Subtask(0),
        };
    }
    arrow_of(&arrows[place])
}

// Where it comes from.
pub fn from_at(arrows: &[[u16; 2]], place: usize) -> Subtask
    ensures { (result.0 ≡ from_of arrows.now place) × (result.0 < 65536) }
{
    arrow_at(arrows, place).from
}

// Where it goes to.
pub fn to_at(arrows: &[[u16; 2]], place: usize) -> Subtask
    ensures { (result.0 ≡ to_of arrows.now place) × (result.0 < 65536) }
{
    arrow_at(arrows, place).to
}

// The subtask at a place of an order.
pub fn subtask_at(order: &[u16], place: usize) -> Subtask
    ensures { (result.0 ≡ get_or order.now place 0) × (result.0 < 65536) }
{
    match order.get(place) {
        Some(held) => subtask_in(*held),
        None => Subtask(0),
    }
}

// The order 1, 2, 3, .. of 256 subtasks.
pub fn order_by_number() -> [u16; 256]
    ensures { (length result ≡ 256) × ((i : ℕ) → i < 256 → get_or result i 0 ≡ i + 1) }
{
    let mut order = [0u16; 256];
    for j in 0..256u16 {
        order[usize::from(j)] = j + 1;
    }
    order
}
