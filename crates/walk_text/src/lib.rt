// The walk program as a function of bytes: R is read from the input, and the lines go into a lent buffer.
#![tactic(auto)]

ghost use Rattle.std.specs.Prelude.{◌≡◌, ◌≤◌, length, take};
ghost use Rattle.io.specs.Counts.{IsPrefixLen};
ghost use Rattle.refusals.specs.Refusals.{number_of};
ghost use Rattle.text.specs.Text.{Appended};
ghost use Rattle.walk_lines.specs.Lines.{output_bytes};
ghost use Rattle.walk_text.specs.Output.{refused_line, walk_output};

use decimal::append_short;
use refusals::{Refusal, check_rows};
use text::append;
use walk_input::rows_read;
use walk_lines::put_steps;

// Room for the longest output: at most twelve bytes for each of 16,384 rows.
pub const OUTPUT_BYTES: usize = 196608;

fn put_refused(out: &mut [u8], refusal: Refusal) -> usize
    requires { output_bytes ≤ length out.old }
    ensures { Appended out.old out.new 0 (refused_line (number_of refusal)) result }
{
    let word = append(out, 0, b"refused ");
    let number = u32::from(refusal);
    let end = append_short(out, word, number as usize);
    append(out, end, b"\n")
}

// The whole output of the walk program at the start of out, for the whole of its input.
pub fn walk_output(input: &[u8], out: &mut [u8]) -> usize
    requires { output_bytes ≤ length out.old }
    ensures prefix_len { IsPrefixLen result out.new }
    ensures out_after { take result out.new ≡ walk_output input.now }
{
    let rows = rows_read(input);
    match check_rows(rows) {
        Ok(()) => put_steps(out, rows),
        Err(refusal) => put_refused(out, refusal),
    }
}
