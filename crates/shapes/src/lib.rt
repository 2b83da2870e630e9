// The best of the matrices with 1, 2 and more columns.
#![tactic(auto)]

ghost use Rattle.std.specs.Prelude.{◌≡◌, ◌≤◌, ◌<◌, ◌^◌};
ghost use Rattle.choice.specs.Choice.{cells, rows_for, better, best_of};

use choice::Shape;
use refusals::{MAX_ROWS, MIN_ROWS};

#[tactic(auto, using(choice::proofs::BestLaws::rows_some, choice::proofs::BestLaws::rows_none))]
// The most rows for so many columns, 0 where fewer than the least are left.
fn rows_for(limit: usize, columns: usize) -> usize
    requires { 1 ≤ columns }
    ensures { result ≡ rows_for limit columns }
{
    let rows = (limit / columns).min(MAX_ROWS);
    if rows < MIN_ROWS { 0 } else { rows }
}

#[tactic(auto, unfolding(choice::specs::Choice::better), using(std::proofs::lemmas::Bool::Decides::nat_tests))]
// The one with more cells, the first of two with as many.
fn better(a: Shape, b: Shape) -> Shape
    requires { (cells a < 2 ^ 64) × (cells b < 2 ^ 64) }
    ensures { result ≡ better a b }
{
    if a.rows * a.columns < b.rows * b.columns {
        b
    } else {
        a
    }
}

// The best of 1 to n columns.
pub fn best(limit: usize, n: usize) -> Shape
    requires { n ≤ 256 }
    ensures { result ≡ best_of limit n }
{
    let mut best = Shape {
        rows: 0,
        columns: 0,
    };
    for columns in 1..=n {
        let tried = Shape {
            rows: rows_for(limit, columns),
            columns,
        };
        best = better(best, tried);
    }
    best
}
