// What C and Rust link: each call of the planner, its reply a flat record. It begins with the refusal, whose three numbers are all 0 with
// success; with a refusal every other field is 0.
#![tactic(auto)]

mod flats;

ghost use Rattle.std.specs.Prelude.{length};
ghost use Rattle.terms.specs.Joins.{graph_of, end_to_end, side_by_side};
ghost use Rattle.terms.specs.Replies.{IsTotalWork, IsLongestPath, IsAnswer, IsListed, IsChecked, IsWritten, IsJoin, IsNestMeasure};
ghost use Rattle.terms.specs.Readings.{IsRead};
ghost use Rattle.api.specs.Flats.{Flattens, flat_amount, flat_measure, flat_answer, flat_end, flat_counts, flat_written};

use crate::flats::{flatten_counts, flatten_written};
use graph::{longest_path, total_work};
use joins::{end_to_end, nest_figures, side_by_side};
use plans::{check_plan, list_plan};
use stg::{read_stg, write_stg};
use terms::Entry;
use verdict::judge;

// Why a call was refused: its number, its place and its second number.
#[repr(C)]
#[derive(Clone, Copy)]
pub struct FlatRefusal {
    pub number: u32,
    pub place: u32,
    pub second: u32,
}

// C or P.
#[repr(C)]
#[derive(Clone, Copy)]
pub struct FlatAmount {
    pub refusal: FlatRefusal,
    pub value: u32,
}

// C and P.
#[repr(C)]
#[derive(Clone, Copy)]
pub struct FlatMeasure {
    pub refusal: FlatRefusal,
    pub c: u32,
    pub p: u32,
}

// C, P, S and the load; fits 1: the margin is the spare, fits 0: it is the shortfall, in microseconds.
#[repr(C)]
#[derive(Clone, Copy)]
pub struct FlatAnswer {
    pub refusal: FlatRefusal,
    pub c: u32,
    pub p: u32,
    pub s: u32,
    pub load: f32,
    pub fits: u32,
    pub margin: u32,
}

// Where a plan ends.
#[repr(C)]
#[derive(Clone, Copy)]
pub struct FlatEnd {
    pub refusal: FlatRefusal,
    pub end: u32,
}

// How many subtasks and arrows a text or a joined graph has.
#[repr(C)]
#[derive(Clone, Copy)]
pub struct FlatCounts {
    pub refusal: FlatRefusal,
    pub subtasks: u32,
    pub arrows: u32,
}

// How many bytes were written.
#[repr(C)]
#[derive(Clone, Copy)]
pub struct FlatWritten {
    pub refusal: FlatRefusal,
    pub bytes: u32,
}

// C.
#[unsafe(no_mangle)]
pub extern "C" fn zul_total_work(times: &[u16], arrows: &[[u16; 2]]) -> FlatAmount
    ensures { Flattens (IsTotalWork times.now arrows.now) flat_amount result }
{
    FlatAmount::from(total_work(times, arrows))
}

// P.
#[unsafe(no_mangle)]
pub extern "C" fn zul_longest_path(times: &[u16], arrows: &[[u16; 2]]) -> FlatAmount
    ensures { Flattens (IsLongestPath times.now arrows.now) flat_amount result }
{
    FlatAmount::from(longest_path(times, arrows))
}

// The answer to a deadline question, on m processors with deadline d.
#[unsafe(no_mangle)]
pub extern "C" fn zul_judge(times: &[u16], arrows: &[[u16; 2]], m: u32, d: u32) -> FlatAnswer
    ensures { Flattens (IsAnswer times.now arrows.now m d) flat_answer result }
{
    FlatAnswer::from(judge(times, arrows, m, d))
}

// Where the plan ends, or why it is refused.
#[unsafe(no_mangle)]
pub extern "C" fn zul_check_plan(
    times: &[u16],
    arrows: &[[u16; 2]],
    m: u32,
    plan: &[Entry],
) -> FlatEnd
    ensures { Flattens (IsChecked times.now arrows.now m plan.now) flat_end result }
{
    FlatEnd::from(check_plan(times, arrows, m, plan))
}

// Writes the list plan to the row, and answers where it ends; or leaves the row as it was, and answers why.
#[unsafe(no_mangle)]
pub extern "C" fn zul_list_plan(
    times: &[u16],
    arrows: &[[u16; 2]],
    m: u32,
    order: &[u16],
    plan: &mut [Entry],
) -> FlatEnd
    ensures { Flattens (IsListed times.now arrows.now m order.now plan.old plan.new) flat_end result }
{
    FlatEnd::from(list_plan(times, arrows, m, order, plan))
}

// Reads an STG text: the counts, and the graph in the two rows, with zeros past it; or a refusal, and rows of zeros.
#[unsafe(no_mangle)]
pub extern "C" fn zul_read_stg(
    text: &[u8],
    times: &mut [u16],
    arrows: &mut [[u16; 2]],
) -> FlatCounts
    ensures { Flattens (IsRead (length times.old) (length arrows.old) text.now times.new arrows.new) flat_counts result }
{
    flatten_counts(read_stg(text, times, arrows))
}

// Writes the STG text of a graph to the front of the room, and answers how many bytes; or leaves the room as it was, and answers why.
#[unsafe(no_mangle)]
pub extern "C" fn zul_write_stg(times: &[u16], arrows: &[[u16; 2]], text: &mut [u8]) -> FlatWritten
    ensures { Flattens (IsWritten times.now arrows.now text.old text.new) flat_written result }
{
    flatten_written(write_stg(times, arrows, text))
}

// Writes two graphs joined end to end to the front of the two rows, and answers how many times and arrows; or leaves the rows as they were.
#[unsafe(no_mangle)]
pub extern "C" fn zul_end_to_end(
    first_times: &[u16],
    first_arrows: &[[u16; 2]],
    second_times: &[u16],
    second_arrows: &[[u16; 2]],
    times: &mut [u16],
    arrows: &mut [[u16; 2]],
) -> FlatCounts
    ensures { Flattens (IsJoin end_to_end (graph_of first_times.now first_arrows.now)
        (graph_of second_times.now second_arrows.now)
        times.old arrows.old times.new arrows.new) flat_counts result }
{
    flatten_counts(end_to_end(
        first_times,
        first_arrows,
        second_times,
        second_arrows,
        times,
        arrows,
    ))
}

// The same side by side.
#[unsafe(no_mangle)]
pub extern "C" fn zul_side_by_side(
    first_times: &[u16],
    first_arrows: &[[u16; 2]],
    second_times: &[u16],
    second_arrows: &[[u16; 2]],
    times: &mut [u16],
    arrows: &mut [[u16; 2]],
) -> FlatCounts
    ensures { Flattens (IsJoin side_by_side (graph_of first_times.now first_arrows.now)
        (graph_of second_times.now second_arrows.now)
        times.old arrows.old times.new arrows.new) flat_counts result }
{
    flatten_counts(side_by_side(
        first_times,
        first_arrows,
        second_times,
        second_arrows,
        times,
        arrows,
    ))
}

// C and P of a nest, out of the row that it is written as.
#[unsafe(no_mangle)]
pub extern "C" fn zul_nest(row: &[[u32; 3]]) -> FlatMeasure
    ensures { Flattens (IsNestMeasure row.now) flat_measure result }
{
    FlatMeasure::from(nest_figures(row))
}
