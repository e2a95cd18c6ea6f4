// How long the lines of a graph's text are.
ghost use Rattle.std.specs.Prelude.{◌≡◌, ◌≤◌, length};
ghost use Rattle.writer.specs.Lines.{task_line, subtasks_text, rows_text, Rows};

use crate::rows::Predecessors;
use inputs::time_in;
use room::number_size;

// A task's line: three numbers, two spaces between them and LF; and each further number with a space before it.
fn line_size(task: u32, time: u32, row: &[u16]) -> usize
    requires { length row.now ≤ 2048 }
    ensures { (result ≡ length (task_line task time row.now)) × (result ≤ 30000) }
{
    let mut size = 3 + number_size(task) + number_size(time) + number_size(row.len() as u32);
    for x in row {
        size += 1 + number_size(u32::from(*x));
    }
    size
}

// The lines of all subtasks.
fn subtasks_size(times: &[u16], predecessors: &Predecessors) -> usize
    requires { Rows times.now predecessors.now.begins.now predecessors.now.numbers.now }
    ensures { (result ≡ length (subtasks_text times.now predecessors.now.begins.now predecessors.now.numbers.now)) × (result ≤ 8000000) }
{
    let mut size: usize = 0;
    for (i, time) in times.iter().enumerate() {
        let row = predecessors.shown(i + 1);
        size += line_size((i + 1) as u32, time_in(*time), row);
    }
    size
}

// The whole text.
pub fn text_size(times: &[u16], predecessors: &Predecessors, lasts: &[u16]) -> usize
    requires { Rows times.now predecessors.now.begins.now predecessors.now.numbers.now × (length lasts.now ≤ 2048) }
    ensures { result ≡ length (rows_text times.now predecessors.now.begins.now predecessors.now.numbers.now lasts.now) }
{
    let n = times.len() as u32;
    let head = number_size(n) + 1 + line_size(0, 0, &[]);
    head + subtasks_size(times, predecessors) + line_size(n + 1, 0, lasts)
}
