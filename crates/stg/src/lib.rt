// The reader of STG texts: one pass over the text, line by line, field by field. And the writer, under its public name.
#![tactic(auto)]

mod numbers;
mod outer_lines;
mod predecessors;
mod tasks;

ghost use Rattle.std.specs.Prelude.{◌≡◌, ◌≤◌, length, drop};
ghost use Rattle.terms.specs.Graphs.{Among};
ghost use Rattle.terms.specs.Texts.{lines};
ghost use Rattle.terms.specs.Readings.{task_lines, read_lines, read_text, IsRead};
ghost use Rattle.terms.specs.Replies.{IsWritten};
ghost use Rattle.stg.specs.LinesRead.{Leaves};
ghost use Rattle.stg.specs.RowsRead.{ChecksRead, RoomOf, TellsOf, ClearedPast};

use graph::check;
use limits::check_subtasks;
use outer_lines::{take_closing, take_opening};
use predecessors::Arrows;
use tasks::take_subtasks;
use terms::{GraphSize, LONGEST_TEXT, MOST_ARROWS, MOST_SUBTASKS, Refusal};
use writer::write_graph;

// The lines from the first of n subtasks' on, the graph put down in the two rows.
fn read_tasks(
    text: &[u8],
    at: usize,
    n: usize,
    times: &mut [u16],
    arrows: &mut [[u16; 2]],
) -> Result<GraphSize, Refusal>
    requires { (at ≤ length text.now) × Among 1 256 n × (256 ≤ length times.old) }
    ensures { Leaves times.old arrows.old (task_lines 1 n (lines (drop at text.now)))
        times.new arrows.new result }
{
    let mut arrows = Arrows {
        row: arrows,
        count: 0,
    };
    let next = take_subtasks(text, at, n, times, &mut arrows)?;
    take_closing(text, next, n + 1)?;
    Ok(GraphSize {
        subtasks: n,
        arrows: arrows.count,
    })
}

// All lines of a text, its graph put down in the two rows.
fn read_lines(text: &[u8], times: &mut [u16], arrows: &mut [[u16; 2]]) -> Result<GraphSize, Refusal>
    requires { 256 ≤ length times.old }
    ensures { Leaves times.old arrows.old (read_lines (lines text.now)) times.new arrows.new result }
{
    let first = take_opening(text)?;
    read_tasks(text, first.next, first.subtasks, times, arrows)
}

// 2 to 7, asked of a graph that was read. Of more than 2,048 arrows the row holds the first ones: only 2 or 3 can be the answer then.
fn check_read(times: &[u16], arrows: &[[u16; 2]], a: usize) -> Result<(), Refusal>
    requires { Among 1 256 (length times.now) × (2048 ≤ length arrows.now) }
    ensures { ChecksRead times.now arrows.now a result }
{
    if a <= MOST_ARROWS {
        return check(times, &arrows[..a]);
    }
    check_subtasks(times)?;
    Err(Refusal::ArrowCount)
}

// Whether the two rows are long enough, and the text is short enough.
fn check_room(times: usize, arrows: usize, text: usize) -> Result<(), Refusal>
    ensures { RoomOf times arrows text result }
{
    if times < MOST_SUBTASKS || arrows < MOST_ARROWS {
        return Err(Refusal::Room);
    }
    if LONGEST_TEXT < text {
        return Err(Refusal::TextLength);
    }
    Ok(())
}

// The reader, but for the places past the last time and the last arrow; with a refusal the rows may hold anything.
fn read_graph(text: &[u8], times: &mut [u16], arrows: &mut [[u16; 2]]) -> Result<GraphSize, Refusal>
    ensures { TellsOf (read_text (length times.old) (length arrows.old) text.now)
        times.new arrows.new result }
{
    check_room(times.len(), arrows.len(), text.len())?;
    let size = read_lines(text, times, arrows)?;
    check_read(&times[..size.subtasks], arrows, size.arrows)?;
    Ok(size)
}

// Clears the places of the two rows past the last time and the last arrow.
fn clear_past(times: &mut [u16], arrows: &mut [[u16; 2]], kept: GraphSize)
    requires { (kept.subtasks ≤ length times.old) × (kept.arrows ≤ length arrows.old) }
    ensures { ClearedPast kept.subtasks times.old times.new kept.arrows arrows.old arrows.new }
{
    times[kept.subtasks..].fill(0);
    arrows[kept.arrows..].fill([0, 0]);
}

// Reads an STG text: the counts, and the graph in the two rows, with zeros past it; or a refusal, and rows of zeros.
pub fn read_stg(
    text: &[u8],
    times: &mut [u16],
    arrows: &mut [[u16; 2]],
) -> Result<GraphSize, Refusal>
    ensures { IsRead (length times.old) (length arrows.old) text.now times.new arrows.new result }
{
    let reply = read_graph(text, times, arrows);
    let kept = reply.unwrap_or(GraphSize {
        subtasks: 0,
        arrows: 0,
    });
    clear_past(times, arrows, kept);
    reply
}

// Writes the STG text of a graph to the front of the room, and answers how many bytes; or leaves the room as it was, and answers why.
pub fn write_stg(times: &[u16], arrows: &[[u16; 2]], text: &mut [u8]) -> Result<usize, Refusal>
    ensures { IsWritten times.now arrows.now text.old text.new result }
{
    write_graph(times, arrows, text)
}
