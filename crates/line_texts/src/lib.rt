// The texts of a login line: their form, and what they say.
#![tactic(auto)]

ghost use Rattle.std.specs.Prelude.{◌≡◌, ◌&&◌, List, ℕ, MatchResult, false};
ghost use Rattle.refusals.specs.declared.Refusal.TheVariants.{LineForm};
ghost use Rattle.refusals.specs.Refusals.{number_of};
ghost use Rattle.decimal.specs.Decimal.{is_number};
ghost use Rattle.base64_encoding.specs.Base64.{is_text};
ghost use Rattle.line_form.specs.Line.{is_line, values_of};
ghost use Rattle.line_form.specs.Promises.{line_values, no_values, said};
ghost use Rattle.line_marks.specs.Cuts.{Marked};
ghost use Rattle.line_texts.specs.Texts.{capped, form_answer, Formed};

use base64_decoding::{decoded_length, is_text};
use decimal::{is_number, number};
use line_form::LineValues;
use line_marks::{Texts, split_line};
use refusals::Refusal;

// Whether they are numbers and base 64.
fn are_texts(texts: Texts<'_>) -> bool
    ensures { result
        ≡ (is_number texts.entry.time.now && is_number texts.entry.rows.now && is_number texts.entry.columns.now && is_text texts.entry.salt.now
        && is_text texts.entry.key.now) }
{
    is_number(texts.time)
        && is_number(texts.rows)
        && is_number(texts.columns)
        && is_text(texts.salt)
        && is_text(texts.key)
}

// The texts of a line that is of the form.
pub fn formed<'a>(line: &'a [u8]) -> Result<Texts<'a>, Refusal>
    ensures { MatchResult result (Formed line.now)
        (λ refusal. (refusal ≡ LineForm) × (is_line line.now ≡ false) × (no_values (number_of refusal) ≡ form_answer line.now)) }
{
    match split_line(line) {
        Some(texts) if are_texts(texts) => Ok(texts),
        _ => Err(Refusal::LineForm),
    }
}

// What the texts say.
pub fn values_of(texts: Texts<'_>) -> LineValues
    ensures value { (line : List ℕ) → Marked line texts.entry → said result ≡ capped (line_values (values_of line)) }
    ensures answer { (line : List ℕ) → Formed line texts.entry → said result ≡ form_answer line }
{
    LineValues {
        time: number(texts.time),
        rows: number(texts.rows),
        columns: number(texts.columns),
        salt: decoded_length(texts.salt.len()),
        key: decoded_length(texts.key.len()),
    }
}
