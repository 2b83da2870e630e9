// Writing a login line into a lent output.
#![tactic(auto)]

ghost use Rattle.std.specs.Prelude.{◌≡◌, ◌+◌, ◌≤◌, ◌<◌, ◌++◌, length};
ghost use Rattle.text.specs.Text.{Appended};
ghost use Rattle.decimal.specs.Decimal.{decimal};
ghost use Rattle.base64_encoding.specs.Base64.{encoded_length, encode};
ghost use Rattle.line_form.specs.Line.{text_mark, line_of, length_by};
ghost use Rattle.line_form.specs.Promises.{Written, length_answer};
ghost use Rattle.line_writing.specs.Values.{values, WithinLimits};

use base64_encoding::{append_encoded, encoded_length};
use decimal::{append_decimal, decimal_length};
use refusals::{Refusal, at_least, check_stored};
use settings::StoredParameters;
use text::append;

// The bytes of all marks together.
const MARKS: usize = 17;

// Puts a mark and a number behind it, and answers where they end.
fn append_number(out: &mut [u8], at: usize, mark: &[u8], n: usize) -> usize
    requires { (n < 100000) × (at + (length mark.now + length (decimal n)) ≤ length out.old) }
    ensures { Appended out.old out.new at (mark.now ++ decimal n) result }
{
    let from = append(out, at, mark);
    append_decimal(out, from, n)
}

// Puts a dollar and the base 64 of bytes behind it, and answers where they end.
fn append_text(out: &mut [u8], at: usize, bytes: &[u8]) -> usize
    requires { (length bytes.now ≤ 1024) × (at + (1 + encoded_length (length bytes.now)) ≤ length out.old) }
    ensures { Appended out.old out.new at (text_mark ++ encode bytes.now) result }
{
    let from = append(out, at, b"$");
    append_encoded(out, from, bytes)
}

#[tactic(auto, unfolding(line_form::specs::Line::length_by))]
fn line_length(p: StoredParameters, salt: usize, key: usize) -> usize
    requires { WithinLimits p salt key }
    ensures { result ≡ length_by p salt key }
{
    let numbers = decimal_length(p.time) + decimal_length(p.rows) + decimal_length(p.columns);
    MARKS + numbers + encoded_length(salt) + encoded_length(key)
}

// Puts the whole line at the start of an output that has room for it.
#[tactic(auto, unfolding(line_form::specs::Line::length_by))]
fn put_line(p: StoredParameters, salt: &[u8], key: &[u8], out: &mut [u8]) -> usize
    requires { WithinLimits p (length salt.now) (length key.now) × (length_by p (length salt.now) (length key.now) ≤ length out.old) }
    ensures { Appended out.old out.new 0 (line_of (values p salt.now key.now)) result }
{
    let time = append_number(out, 0, b"$lyra2$t=", p.time);
    let rows = append_number(out, time, b",r=", p.rows);
    let columns = append_number(out, rows, b",c=", p.columns);
    let end = append_text(out, columns, salt);
    append_text(out, end, key)
}

// Writes a line at the start of the output, and answers its length.
pub fn write_line(
    p: StoredParameters,
    salt: &[u8],
    key: &[u8],
    line: &mut [u8],
) -> Result<usize, Refusal>
    ensures { Written (values p salt.now key.now) line.old line.new (length_answer result) }
{
    check_stored(key.len(), salt.len(), p)?;
    let length = line_length(p, salt.len(), key.len());
    at_least(length, line.len(), Refusal::OutputLength)?;
    Ok(put_line(p, salt, key, line))
}
