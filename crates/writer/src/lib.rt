// The STG text of a graph, written into a lent room.
#![tactic(auto)]

mod lines;
mod rows;
mod sizes;

ghost use Rattle.std.specs.Prelude.{◌≤◌, length};
ghost use Rattle.terms.specs.Rows.{Accepted};
ghost use Rattle.terms.specs.Refusals.{graph_rows};
ghost use Rattle.terms.specs.Replies.{IsWritten};
ghost use Rattle.writer.specs.Lines.{rows_text, Rows, SoundRows};
ghost use Rattle.writer.specs.Fronts.{Writes};

use crate::lines::put_text;
use crate::rows::Predecessors;
use crate::sizes::text_size;
use arranged::{by_to, lasts};
use graph::check;
use terms::Refusal;

// The text where there is room for it, else 11.
fn write_text(
    times: &[u16],
    predecessors: &Predecessors,
    lasts: &[u16],
    text: &mut [u8],
) -> Result<usize, Refusal>
    requires { Rows times.now predecessors.now.begins.now predecessors.now.numbers.now × (length lasts.now ≤ 2048) }
    ensures { Writes (rows_text times.now predecessors.now.begins.now predecessors.now.numbers.now lasts.now)
        text.old text.new result }
{
    let size = text_size(times, predecessors, lasts);
    if text.len() < size {
        return Err(Refusal::Room);
    }
    put_text(text, times, predecessors, lasts);
    Ok(size)
}

// The text of an accepted graph, over its rows of predecessors.
fn write_rows(
    times: &[u16],
    arrows: &[[u16; 2]],
    predecessors: &Predecessors,
    text: &mut [u8],
) -> Result<usize, Refusal>
    requires { SoundRows times.now arrows.now predecessors.now.begins.now predecessors.now.numbers.now }
    ensures { IsWritten times.now arrows.now text.old text.new result }
{
    let mut list = [0u16; 256];
    let count = lasts(times.len(), arrows, &mut list);
    write_text(times, predecessors, &list[..count], text)
}

// The text of an accepted graph. The arrangement has room for each such graph and refuses none.
fn write_accepted(times: &[u16], arrows: &[[u16; 2]], text: &mut [u8]) -> Result<usize, Refusal>
    requires { Accepted (graph_rows times.now arrows.now) }
    ensures { IsWritten times.now arrows.now text.old text.new result }
{
    let mut begins = [0u16; 257];
    let mut numbers = [0u16; 2048];
    let Ok(()) = by_to(times, arrows, &mut begins, &mut numbers) else {
        unreachable!()
    };
    let predecessors = Predecessors {
        begins: &begins,
        numbers: &numbers,
    };
    write_rows(times, arrows, &predecessors, text)
}

// Writes the STG text of a graph to the front of the lent room. 1 to 7 are asked before there are any tables for its arrows.
pub fn write_graph(times: &[u16], arrows: &[[u16; 2]], text: &mut [u8]) -> Result<usize, Refusal>
    ensures { IsWritten times.now arrows.now text.old text.new result }
{
    check(times, arrows)?;
    write_accepted(times, arrows, text)
}
