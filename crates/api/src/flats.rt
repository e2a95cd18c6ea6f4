// The replies made flat.
ghost use Rattle.std.specs.Prelude.{◌≡◌};
ghost use Rattle.api.specs.Flats.{InRange, IsShort, flat_success, flat_refusal, flat_amount, flat_measure, flat_judged, flat_answer, flat_end, flat_counts, flat_written};

use crate::{FlatAmount, FlatAnswer, FlatCounts, FlatEnd, FlatMeasure, FlatRefusal, FlatWritten};
use terms::{Answer, Figures, GraphSize, Refusal, Verdict, Weights};

// Success.
const SUCCESS: FlatRefusal = FlatRefusal {
    number: 0,
    place: 0,
    second: 0,
};

impl From<Refusal> for FlatRefusal {
    ghost from_gives = { λ refusal flat. flat ≡ flat_refusal refusal };

    fn from(refusal: Refusal) -> FlatRefusal {
        FlatRefusal {
            number: u32::from(refusal.number()),
            place: refusal.place(),
            second: refusal.second(),
        }
    }
}

impl From<Result<u32, Refusal>> for FlatAmount {
    ghost from_gives = { λ reply flat. flat ≡ flat_amount reply };

    fn from(reply: Result<u32, Refusal>) -> FlatAmount {
        match reply {
            Ok(value) => FlatAmount {
                refusal: SUCCESS,
                value,
            },
            Err(refusal) => FlatAmount {
                refusal: FlatRefusal::from(refusal),
                value: 0,
            },
        }
    }
}

impl From<Result<Weights, Refusal>> for FlatMeasure {
    ghost from_gives = { λ reply flat. flat ≡ flat_measure reply };

    fn from(reply: Result<Weights, Refusal>) -> FlatMeasure {
        match reply {
            Ok(Weights { c, p }) => FlatMeasure {
                refusal: SUCCESS,
                c,
                p,
            },
            Err(refusal) => FlatMeasure {
                refusal: FlatRefusal::from(refusal),
                c: 0,
                p: 0,
            },
        }
    }
}

fn flatten_judged(figures: Figures, fits: u32, margin: u32) -> FlatAnswer
    ensures { result ≡ flat_judged figures fits margin }
{
    let Figures { c, p, s, load } = figures;
    FlatAnswer {
        refusal: SUCCESS,
        c,
        p,
        s,
        load,
        fits,
        margin,
    }
}

impl From<Answer> for FlatAnswer {
    ghost from_gives = { λ reply flat. flat ≡ flat_answer reply };

    fn from(reply: Answer) -> FlatAnswer {
        match reply.outcome {
            Ok(Verdict::Fits(spare)) => flatten_judged(reply.figures, 1, spare),
            Ok(Verdict::Late(shortfall)) => flatten_judged(reply.figures, 0, shortfall),
            Err(refusal) => FlatAnswer {
                refusal: FlatRefusal::from(refusal),
                c: 0,
                p: 0,
                s: 0,
                load: 0.0,
                fits: 0,
                margin: 0,
            },
        }
    }
}

impl From<Result<u32, Refusal>> for FlatEnd {
    ghost from_gives = { λ reply flat. flat ≡ flat_end reply };

    fn from(reply: Result<u32, Refusal>) -> FlatEnd {
        match reply {
            Ok(end) => FlatEnd {
                refusal: SUCCESS,
                end,
            },
            Err(refusal) => FlatEnd {
                refusal: FlatRefusal::from(refusal),
                end: 0,
            },
        }
    }
}

// The counts and the length fit 32 bits only as the reader, the joins and the writer promise, and a `From` asks nothing of its argument: so
// these two are functions.
pub fn flatten_counts(reply: Result<GraphSize, Refusal>) -> FlatCounts
    requires { InRange reply }
    ensures { result ≡ flat_counts reply }
{
    match reply {
        Ok(size) => FlatCounts {
            refusal: SUCCESS,
            subtasks: size.subtasks as u32,
            arrows: size.arrows as u32,
        },
        Err(refusal) => FlatCounts {
            refusal: FlatRefusal::from(refusal),
            subtasks: 0,
            arrows: 0,
        },
    }
}

pub fn flatten_written(reply: Result<usize, Refusal>) -> FlatWritten
    requires { IsShort reply }
    ensures { result ≡ flat_written reply }
{
    match reply {
        Ok(size) => FlatWritten {
            refusal: SUCCESS,
            bytes: size as u32,
        },
        Err(refusal) => FlatWritten {
            refusal: FlatRefusal::from(refusal),
            bytes: 0,
        },
    }
}
