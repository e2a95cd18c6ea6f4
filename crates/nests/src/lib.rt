// The figures of a nest: C and P of a product, out of the row that says how it is made of graphs.
#![tactic(auto)]

mod walk;

ghost use Rattle.terms.specs.Replies.{IsNestMeasure};

use crate::walk::sequence_at;
use terms::{Refusal, Weights};

// C and P of a nest, out of the row that it is written as.
pub fn figures_of(row: &[[u32; 3]]) -> Result<Weights, Refusal>
    ensures { IsNestMeasure row.now result }
{
    if 256 < row.len() {
        return Err(Refusal::Nest);
    }
    let Some(nest) = sequence_at(row, 0, 8) else {
        return Err(Refusal::Nest);
    };
    if nest.next < row.len() {
        return Err(Refusal::Nest);
    }
    Ok(Weights {
        c: nest.c,
        p: nest.p,
    })
}
