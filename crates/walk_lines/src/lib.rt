// The lines of the Setup steps, put into a lent buffer. Each function answers where its text ends.
#![tactic(auto)]

ghost use Rattle.std.specs.Prelude.{◌+◌, ◌-◌, ◌≤◌, ◌<◌, length};
ghost use Rattle.text.specs.Text.{Appended};
ghost use Rattle.walk_lines.specs.Lines.{line, step_lines, output_bytes};

use decimal::append_short;
use setup_order::Order;
use text::append;

fn append_line(out: &mut [u8], at: usize, row0: usize, row1: usize) -> usize
    requires { (row0 < 100000) × (row1 < 100000) × (at + 12 ≤ length out.old) }
    ensures appended { Appended out.old out.new at (line row0 row1) result }
    ensures upper_bound { result ≤ at + 12 }
{
    let first = append_short(out, at, row0);
    let space = append(out, first, b" ");
    let second = append_short(out, space, row1);
    append(out, second, b"\n")
}

// The lines of the Setup steps of a matrix of `rows` rows.
pub fn put_steps(out: &mut [u8], rows: usize) -> usize
    requires { (3 ≤ rows) × (rows ≤ 16384) × (output_bytes ≤ length out.old) }
    ensures { Appended out.old out.new 0 (step_lines (rows - 3)) result }
{
    let mut order = Order::first();
    let mut at = 0;
    for row in 3..rows {
        at = append_line(out, at, row, order.row1);
        order = order.next();
    }
    at
}
