// The lines of a graph's text, put into a lent room: it has room for them.
ghost use Rattle.std.specs.Prelude.{ℕ, [], ◌∷◌, ◌≤◌, length};
ghost use Rattle.terms.specs.Writings.{decimal};
ghost use Rattle.room.specs.Puts.{HasRoom, Stands, HasRoomFor, Puts, PutsWhole};
ghost use Rattle.writer.specs.Lines.{task_line, subtasks_text, rows_text, Rows};

use crate::rows::Predecessors;
use inputs::time_in;
use room::Pen;

// A further number of a line: a space, and the number.
fn put_further(pen: &mut Pen, x: u32)
    requires { HasRoomFor pen.old (32 ∷ decimal x) }
    ensures { PutsWhole pen.old (32 ∷ decimal x) pen.new }
{
    pen.put_byte(b' ');
    pen.put_number(x);
}

// LF, after every line.
fn end_line(pen: &mut Pen)
    ensures { Puts pen.old (10 ∷ []) pen.new }
{
    pen.put_byte(b'\n');
}

// A task's line: its number, its time, how many numbers are in its row, and these.
fn put_line(pen: &mut Pen, task: u32, time: u32, row: &[u16])
    requires { (length row.now ≤ 2048) × HasRoomFor pen.old (task_line task time row.now) }
    ensures { PutsWhole pen.old (task_line task time row.now) pen.new }
{
    pen.put_number(task);
    put_further(pen, time);
    put_further(pen, row.len() as u32);
    for x in row {
        put_further(pen, u32::from(*x));
    }
    end_line(pen);
}

// The lines of all subtasks.
fn put_subtasks(pen: &mut Pen, times: &[u16], predecessors: &Predecessors)
    requires { Rows times.now predecessors.now.begins.now predecessors.now.numbers.now
        × HasRoomFor pen.old (subtasks_text times.now predecessors.now.begins.now predecessors.now.numbers.now) }
    ensures { PutsWhole pen.old (subtasks_text times.now predecessors.now.begins.now predecessors.now.numbers.now) pen.new }
{
    for (i, time) in times.iter().enumerate() {
        let row = predecessors.shown(i + 1);
        put_line(pen, (i + 1) as u32, time_in(*time), row);
    }
}

// The whole text: the number of subtasks, the entry dummy's line, the subtasks' lines, the exit dummy's line.
pub fn put_text(text: &mut [u8], times: &[u16], predecessors: &Predecessors, lasts: &[u16])
    requires { Rows times.now predecessors.now.begins.now predecessors.now.numbers.now × (length lasts.now ≤ 2048)
        × HasRoom text.old 0 (rows_text times.now predecessors.now.begins.now predecessors.now.numbers.now lasts.now) }
    ensures { (past : ℕ) × Stands text.old 0 (rows_text times.now predecessors.now.begins.now predecessors.now.numbers.now lasts.now)
        text.new past }
{
    let n = times.len() as u32;
    let mut pen = Pen { text, at: 0 };
    pen.put_number(n);
    end_line(&mut pen);
    put_line(&mut pen, 0, 0, &[]);
    put_subtasks(&mut pen, times, predecessors);
    put_line(&mut pen, n + 1, 0, lasts);
}
