// Reading a login line into two lent outputs.
#![tactic(auto)]

ghost use Rattle.std.specs.Prelude.{◌≡◌, [], ◌∷◌, ◌++◌, length};
ghost use Rattle.refusals.specs.Checks.{◌≤?◌, first, output_check};
ghost use Rattle.refusals.specs.Refusals.{answer_number};
ghost use Rattle.line_form.specs.Promises.{said, values_answer, Read};
ghost use Rattle.line_reading.specs.Checks.{said_checks};

use base64_decoding::put_decoded;
use line_form::LineValues;
use line_texts::{formed, values_of};
use refusals::{Refusal, check_stored};
use settings::StoredParameters;

// The last check: either output is too short.
#[tactic(auto, unfolding(refusals::specs::Checks::first))]
fn check_outputs(v: LineValues, salt_room: usize, key_room: usize) -> Result<(), Refusal>
    ensures { answer_number result ≡ first (output_check (v.salt ≤? salt_room ∷ v.key ≤? key_room ∷ []) ∷ []) }
{
    if v.salt <= salt_room && v.key <= key_room {
        Ok(())
    } else {
        Err(Refusal::OutputLength)
    }
}

// The checks of what a line says: its values, and then the room of the outputs.
fn check_said(v: LineValues, salt_room: usize, key_room: usize) -> Result<(), Refusal>
    ensures { answer_number result ≡ first (said_checks (said v) salt_room key_room) }
{
    let p = StoredParameters {
        time: v.time,
        rows: v.rows,
        columns: v.columns,
    };
    check_stored(v.key, v.salt, p)?;
    check_outputs(v, salt_room, key_room)
}

// Reads a line: salt and key are put at the start of their outputs once nothing can be refused any more.
pub fn read_line(line: &[u8], salt: &mut [u8], key: &mut [u8]) -> Result<LineValues, Refusal>
    ensures { Read line.now salt.old key.old salt.new key.new (values_answer result) }
{
    let texts = formed(line)?;
    let values = values_of(texts);
    check_said(values, salt.len(), key.len())?;
    put_decoded(texts.salt, salt);
    put_decoded(texts.key, key);
    Ok(values)
}
