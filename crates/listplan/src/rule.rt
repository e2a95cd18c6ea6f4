// The list rule at work: from one end to the next.
ghost use Rattle.std.specs.Prelude.{◌≡◌, ◌≤◌, length, replicate};
ghost use Rattle.terms.specs.Graphs.{Among};
ghost use Rattle.terms.specs.Paths.{total_work};
ghost use Rattle.terms.specs.ListRule.{IsOrder, IsListPlan};
ghost use Rattle.theory.specs.Sound.{SoundGraph};
ghost use Rattle.forms.specs.Forms.{never};
ghost use Rattle.listplan.specs.Making.{IsJob, Making};

use crate::events::count_off;
use crate::holders::Holders;
use crate::marks::Marks;
use crate::starts::next_start;
use crate::tables::{chain_arrows, rank_subtasks};
use forms::{NEVER, NOT_PLACED};
use inputs::{subtask_at, time_of};
use terms::{Entry, Processor};

// What stays the same while a plan is made: the input; the chains of the arrows by where they come from; where each subtask stands in the
// order.
#[derive(Clone, Copy)]
pub struct Job<'a> {
    pub times: &'a [u16],
    pub arrows: &'a [[u16; 2]],
    pub m: usize,
    pub order: &'a [u16],
    pub first: &'a [u16; 257],
    pub next: &'a [u16; 2048],
    pub rank: &'a [u16; 257],
    ghost sound: { IsJob times.now arrows.now order.now m first.now next.now rank.now },
}

// Makes the list plan. At t each subtask that ends (`due` is the first processor with one) leaves its processor, and its arrows are counted
// off (c is the position of the next one); then whatever can go goes; then the clock moves to the soonest end. No processor before `free` is
// free, and no place of the order below `low` is marked. (Which step comes next is decided by what the last one left: no `for`.)
fn follow_rule(job: &Job, left: &mut [u16; 257], marks: &mut Marks, plan: &mut [Entry])
    requires { Making job.now.times.now job.now.arrows.now job.now.order.now job.now.m
        0 0 left.old marks.old (replicate 17 never) (replicate 17 0) plan.old }
    ensures list_plan { IsListPlan job.now.times.now job.now.arrows.now job.now.order.now job.now.m plan.new }
    ensures whole { length plan.new ≡ length job.now.times.now }
{
    let mut holders = Holders::none();
    let mut t: u32 = 0;
    let mut c: usize = 0;
    let mut due: Option<Processor> = None;
    let mut free = Processor(1);
    let mut low: usize = 0;
    loop {
        if c != 0 {
            low = count_off(job, left, marks, c - 1, low);
            c = usize::from(job.next[c - 1]);
            continue;
        }
        if let Some(processor) = due {
            c = usize::from(job.first[holders.leave(processor).0]);
            due = holders.first_due(job.m, t, usize::from(processor.0) + 1);
            free = Processor(1);
            continue;
        }
        if let Some(start) = next_start(marks, low, job.order.len(), &holders, job.m, free) {
            let subtask = subtask_at(job.order, start.place);
            plan[subtask.0 - 1] = Entry {
                processor: start.processor,
                start: t,
            };
            holders.enter(subtask, start.processor, t + time_of(job.times, subtask));
            marks.unmark(start.place);
            free = start.processor;
            low = start.place + 1;
            continue;
        }
        let soonest = holders.soonest(job.m);
        due = Some(soonest);
        t = holders.until[usize::from(soonest.0)];
        if t == NEVER {
            return;
        }
    }
}

// The list plan, over a row with one place for each subtask.
pub fn make_plan(times: &[u16], arrows: &[[u16; 2]], m: usize, order: &[u16], plan: &mut [Entry])
    requires sound_graph { SoundGraph times.now arrows.now }
    requires among { Among 1 16 m × IsOrder times.now order.now × (total_work times.now ≤ 16776960) }
    requires whole { length plan.old ≡ length times.now }
    ensures list_plan { IsListPlan times.now arrows.now order.now m plan.new }
    ensures whole { length plan.new ≡ length times.now }
{
    let mut first = [0u16; 257];
    let mut next = [0u16; 2048];
    let mut left = [0u16; 257];
    let mut rank = [0u16; 257];
    let mut marks = Marks::none();
    chain_arrows(arrows, &mut first, &mut next, &mut left);
    rank_subtasks(order, &left, &mut rank, &mut marks);
    plan.fill(NOT_PLACED);
    let job = Job {
        times,
        arrows,
        m,
        order,
        first: &first,
        next: &next,
        rank: &rank,
    };
    follow_rule(&job, &mut left, &mut marks, plan);
}
