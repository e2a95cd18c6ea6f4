// Whether a row is an order of all subtasks.
ghost use Rattle.std.specs.Prelude.{◌≤◌, length};
ghost use Rattle.terms.specs.ListRule.{IsOrder};
ghost use Rattle.theory.specs.Flags.{Says};

use inputs::subtask_in;

// 10 does not hold: the order has exactly n entries, each of 1..n once.
pub fn is_order(times: &[u16], order: &[u16]) -> bool
    requires { length times.now ≤ 256 }
    ensures { Says (IsOrder times.now order.now) result }
{
    if order.len() != times.len() {
        return false;
    }
    let mut seen = [false; 257];
    for number in order {
        let j = subtask_in(*number).0;
        if j < 1 || times.len() < j || seen[j] {
            return false;
        }
        seen[j] = true;
    }
    true
}
