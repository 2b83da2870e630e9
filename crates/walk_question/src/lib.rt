// The walk question: row1 of a Setup step.
#![tactic(auto)]

ghost use Rattle.std.specs.Prelude.{◌≡◌, ◌≤◌};
ghost use Rattle.setup_order.specs.SetupOrder.{row1_of};
ghost use Rattle.walk_question.specs.Question.{walk_answer, walked_answer};

use refusals::{Refusal, check_walk};
use setup_order::Order;

fn row1_of(row0: usize) -> usize
    requires { (3 ≤ row0) × (row0 ≤ 16384) }
    ensures { result ≡ row1_of row0 }
{
    let mut order = Order::first();
    for _ in 3..row0 {
        order = order.next();
    }
    order.row1
}

// row1 of the Setup step that fills row0, of so many rows.
pub fn walk(rows: usize, row0: usize) -> Result<usize, Refusal>
    ensures { walked_answer result ≡ walk_answer rows row0 }
{
    check_walk(rows, row0)?;
    Ok(row1_of(row0))
}
