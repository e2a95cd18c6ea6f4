// The words of the planner: its kinds of number, its records, the refusals, its limits. A call that may refuse replies a `Result`.
#![tactic(auto)]

ghost use Rattle.std.specs.Prelude.{◌≡◌};
ghost use Rattle.terms.specs.Rows.{number_of, place_of, second_of};

// At most so many subtasks, arrows and processors.
pub const MOST_SUBTASKS: usize = 256;

pub const MOST_ARROWS: usize = 2048;

pub const MOST_PROCESSORS: u32 = 16;

// The longest deadline, in microseconds.
pub const LONGEST_DEADLINE: u32 = 1000000;

// The latest start, in microseconds: 256 subtasks of 65,535.
pub const LATEST_START: u32 = 16776960;

// The longest text, in bytes.
pub const LONGEST_TEXT: usize = 60000;

// The number of a subtask, from 1 on. A machine word, so that a number out of a text or a row of any width is one without loss.
#[derive(Clone, Copy)]
pub struct Subtask(pub usize);

// The number of a processor, from 1 on; 0 in a plan in the making stands for "not placed".
#[repr(C)]
#[derive(Clone, Copy)]
pub struct Processor(pub u8);

// An arrow: `to` starts when `from` has ended.
#[derive(Clone, Copy)]
pub struct Arrow {
    pub from: Subtask,
    pub to: Subtask,
}

// What a plan holds for one subtask.
#[repr(C)]
#[derive(Clone, Copy)]
pub struct Entry {
    pub processor: Processor,
    pub start: u32,
}

// Why an input is refused, and where: the rows of the table of refusals.
#[derive(Clone, Copy, PartialEq, Eq)]
pub enum Refusal {
    // 1: the count of subtasks is not 1 to 256.
    SubtaskCount,
    // 2: the time of this subtask is 0.
    TimeZero(u32),
    // 3: there are more than 2,048 arrows.
    ArrowCount,
    // 4: this arrow, counted from 1, names a subtask outside 1 to n.
    ArrowOutside(u32),
    // 5: this arrow leads from a subtask to itself.
    ArrowToItself(u32),
    // 6: this arrow repeats an earlier one.
    ArrowTwice(u32),
    // 7: the arrows close a cycle through this subtask, the lowest on any.
    Cycle(u32),
    // 8: the count of processors is not 1 to 16.
    ProcessorCount,
    // 9: the deadline is not 1 to 1,000,000 microseconds.
    Deadline,
    // 10: the order does not hold each subtask exactly once.
    Order,
    // 11: the lent room is too short.
    Room,
    // 12: the plan has not one entry for each subtask.
    PlanLength,
    // 13: this subtask is on a processor outside 1 to M.
    ProcessorOutside(u32),
    // 14: this subtask starts above 16,776,960 microseconds.
    StartLarge(u32),
    // 15: this subtask starts before a predecessor ends.
    StartEarly(u32),
    // 16: these two subtasks share an instant on one processor.
    Overlap(u32, u32),
    // 17: at this instant, in microseconds, a subtask is ready and a processor is free.
    Idle(u32),
    // 20: the text is above 60,000 bytes.
    TextLength,
    // 21: the first line is not one number 1 to 256.
    FirstLine,
    // 22: a task line is missing or misshapen, or something stands after the last one.
    TaskLine,
    // 23: the line of a dummy is not a proper one.
    DummyLine,
    // 24: a time is above 65,535.
    TimeLarge,
    // 30: the joined graph has more than 256 subtasks.
    JoinedSubtasks,
    // 31: the joined graph has more than 2,048 arrows.
    JoinedArrows,
    // 32: the row is not the writing of a nest.
    Nest,
}

impl Refusal {
    // The number in the table.
    pub fn number(self) -> u8
        ensures { result ≡ number_of self }
    {
        match self {
            Refusal::SubtaskCount => 1,
            Refusal::TimeZero(_) => 2,
            Refusal::ArrowCount => 3,
            Refusal::ArrowOutside(_) => 4,
            Refusal::ArrowToItself(_) => 5,
            Refusal::ArrowTwice(_) => 6,
            Refusal::Cycle(_) => 7,
            Refusal::ProcessorCount => 8,
            Refusal::Deadline => 9,
            Refusal::Order => 10,
            Refusal::Room => 11,
            Refusal::PlanLength => 12,
            Refusal::ProcessorOutside(_) => 13,
            Refusal::StartLarge(_) => 14,
            Refusal::StartEarly(_) => 15,
            Refusal::Overlap(_, _) => 16,
            Refusal::Idle(_) => 17,
            Refusal::TextLength => 20,
            Refusal::FirstLine => 21,
            Refusal::TaskLine => 22,
            Refusal::DummyLine => 23,
            Refusal::TimeLarge => 24,
            Refusal::JoinedSubtasks => 30,
            Refusal::JoinedArrows => 31,
            Refusal::Nest => 32,
        }
    }

    // The place that goes with it, else 0.
    pub fn place(self) -> u32
        ensures { result ≡ place_of self }
    {
        match self {
            Refusal::TimeZero(place)
            | Refusal::ArrowOutside(place)
            | Refusal::ArrowToItself(place)
            | Refusal::ArrowTwice(place)
            | Refusal::Cycle(place)
            | Refusal::ProcessorOutside(place)
            | Refusal::StartLarge(place)
            | Refusal::StartEarly(place)
            | Refusal::Idle(place) => place,
            Refusal::Overlap(lower, _) => lower,
            _ => 0,
        }
    }

    // Where that is of two the second, else 0.
    pub fn second(self) -> u32
        ensures { result ≡ second_of self }
    {
        match self {
            Refusal::Overlap(_, higher) => higher,
            _ => 0,
        }
    }
}

// C and P of a graph, together.
#[derive(Clone, Copy)]
pub struct Weights {
    pub c: u32,
    pub p: u32,
}

// The figures of a graph on M processors against a deadline: C, P, S and the load.
#[derive(Clone, Copy)]
pub struct Figures {
    pub c: u32,
    pub p: u32,
    pub s: u32,
    pub load: f32,
}

// Fits, with the spare; or late, with the shortfall; in microseconds.
#[derive(Clone, Copy)]
pub enum Verdict {
    Fits(u32),
    Late(u32),
}

// The answer to a deadline question.
#[derive(Clone, Copy)]
pub struct Answer {
    pub figures: Figures,
    pub outcome: Result<Verdict, Refusal>,
}

// How many subtasks and arrows a text or a joined graph has.
#[derive(Clone, Copy)]
pub struct GraphSize {
    pub subtasks: usize,
    pub arrows: usize,
}
