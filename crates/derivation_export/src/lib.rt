// The operations under C names. Each hands on to the proved one and takes its answer apart: the result is 0 or the number of a
// refusal, and the answer's other fields are stored, zeros where the call was refused. A refusal leaves key, matrix and record as
// they were.
#![tactic(auto)]

ghost use Rattle.std.specs.Prelude.{◌≡◌, false, [], ◌∷◌, length, drop};
ghost use Rattle.profile.specs.Profile.{usual_rotation};
ghost use Rattle.packing.specs.Packing.{low_of, high_of};
ghost use Rattle.input.specs.Input.{input};
ghost use Rattle.refusals.specs.Checks.{first, cost_checks, lanes_cost_checks};
ghost use Rattle.derivation.specs.Answers.{cost_answer};
ghost use Rattle.derivation.specs.Promises.{Derived, Compared, Recorded};
ghost use Rattle.lanes_derivation.specs.LanesCosts.{lanes_answer};
ghost use Rattle.lanes_derivation.specs.LanesContracts.{LanesDerived, LanesCompared};
ghost use Rattle.choice.specs.Choice.{choice_answer};
ghost use Rattle.walk_question.specs.Question.{walk_answer};
ghost use Rattle.line_form.specs.Promises.{Read, Written};
ghost use Rattle.line_writing.specs.Values.{values};
ghost use Rattle.accounts.specs.Accounts.{entry_of};
ghost use Rattle.accounts.specs.Promises.{account, find_answer, Removed, Added};
ghost use Rattle.book_check.specs.Promises.{AccountChecked};
ghost use Rattle.c_answers.specs.Stored.{parameters, stored_parameters, lengths_of, limits_of, stored as «counts-stored», stored_choice, stored_values, stored_length, stored_place, stored_entry};

use c_answers::{
    store_check, store_choice, store_costs, store_entry, store_number, store_pair, store_recording,
    store_values,
};
use choice::Limits;
use mixer::Mixer;
use packing::Pair;
use profile::Profile;
use settings::{Lengths, Parameters, StoredParameters};

// The parameters that a caller gives one by one; the mixer is BlaMka where the last is true.
fn gathered(
    time: usize,
    rows: usize,
    columns: usize,
    rounds: usize,
    rotation: usize,
    mixer: bool,
) -> Parameters
    ensures { result ≡ parameters time rows columns rounds rotation mixer }
{
    let mixer = Mixer::from(mixer);
    Parameters {
        time,
        rows,
        columns,
        rounds,
        rotation,
        mixer,
    }
}

// The plain derivation: fills the key, and leaves zeros in the used matrix.
#[unsafe(no_mangle)]
pub extern "C" fn lyra2_derive(
    password: &[u8],
    salt: &[u8],
    time: usize,
    rows: usize,
    columns: usize,
    rounds: usize,
    rotation: usize,
    mixer: bool,
    key: &mut [u8],
    matrix: &mut [u64],
    counts: &mut [u64; 3],
) -> u32
    ensures { Derived (parameters time rows columns rounds rotation mixer) (input password.now salt.now (length key.old)) key.old matrix.old key.new matrix.new («counts-stored» result counts.new) }
{
    let p = gathered(time, rows, columns, rounds, rotation, mixer);
    store_costs(
        plain_deriving::derive(password, salt, p, key, matrix),
        counts,
    )
}

// The check: `same` becomes 1 where the stored bytes are the key, else 0. The used matrix is left as zeros.
#[unsafe(no_mangle)]
pub extern "C" fn lyra2_check(
    password: &[u8],
    salt: &[u8],
    time: usize,
    rows: usize,
    columns: usize,
    rounds: usize,
    rotation: usize,
    mixer: bool,
    stored: &[u8],
    matrix: &mut [u64],
    same: &mut u32,
    counts: &mut [u64; 3],
) -> u32
    ensures { Compared (parameters time rows columns rounds rotation mixer) (input password.now salt.now (length stored.now)) stored.now matrix.old matrix.new («counts-stored» result counts.new) same.new }
{
    let p = gathered(time, rows, columns, rounds, rotation, mixer);
    store_check(
        checking::check(password, salt, p, stored, matrix),
        same,
        counts,
    )
}

// The cost question. No cost depends on the rotation or on the mixer, so any will do.
#[unsafe(no_mangle)]
pub extern "C" fn lyra2_cost(
    key: usize,
    password: usize,
    salt: usize,
    time: usize,
    rows: usize,
    columns: usize,
    rounds: usize,
    counts: &mut [u64; 3],
) -> u32
    ensures { «counts-stored» result counts.new ≡ cost_answer (first (cost_checks (lengths_of key password salt) (parameters time rows columns rounds usual_rotation false))) (lengths_of key password salt) (parameters time rows columns rounds usual_rotation false) }
{
    let l = Lengths {
        key,
        password,
        salt,
    };
    let p = Parameters {
        time,
        rows,
        columns,
        rounds,
        rotation: Profile::USUAL_ROTATION,
        mixer: Mixer::Plain,
    };
    store_costs(costs::cost(l, p), counts)
}

// The derivation with several lanes: fills the key, and leaves zeros in the used matrix.
#[unsafe(no_mangle)]
pub extern "C" fn lyra2_lanes_derive(
    password: &[u8],
    salt: &[u8],
    time: usize,
    rows: usize,
    columns: usize,
    lanes: usize,
    key: &mut [u8],
    matrix: &mut [u64],
    counts: &mut [u64; 3],
) -> u32
    ensures { LanesDerived (stored_parameters time rows columns) lanes (input password.now salt.now (length key.old)) key.old matrix.old key.new matrix.new («counts-stored» result counts.new) }
{
    let p = StoredParameters {
        time,
        rows,
        columns,
    };
    store_costs(
        lanes_deriving::derive_lanes(password, salt, p, lanes, key, matrix),
        counts,
    )
}

// The check with several lanes: `same` becomes 1 where the stored bytes are the key, else 0. The used matrix is left as zeros.
#[unsafe(no_mangle)]
pub extern "C" fn lyra2_lanes_check(
    password: &[u8],
    salt: &[u8],
    time: usize,
    rows: usize,
    columns: usize,
    lanes: usize,
    stored: &[u8],
    matrix: &mut [u64],
    same: &mut u32,
    counts: &mut [u64; 3],
) -> u32
    ensures { LanesCompared (stored_parameters time rows columns) lanes (input password.now salt.now (length stored.now)) stored.now matrix.old matrix.new («counts-stored» result counts.new) same.new }
{
    let p = StoredParameters {
        time,
        rows,
        columns,
    };
    store_check(
        lanes_deriving::check_lanes(password, salt, p, lanes, stored, matrix),
        same,
        counts,
    )
}

// The cost question for several lanes.
#[unsafe(no_mangle)]
pub extern "C" fn lyra2_lanes_cost(
    key: usize,
    password: usize,
    salt: usize,
    time: usize,
    rows: usize,
    columns: usize,
    lanes: usize,
    counts: &mut [u64; 3],
) -> u32
    ensures { «counts-stored» result counts.new ≡ lanes_answer (first (lanes_cost_checks (lengths_of key password salt) (stored_parameters time rows columns) lanes)) (lengths_of key password salt) (stored_parameters time rows columns) lanes }
{
    let l = Lengths {
        key,
        password,
        salt,
    };
    let p = StoredParameters {
        time,
        rows,
        columns,
    };
    store_costs(lanes_deriving::cost_lanes(l, p, lanes), counts)
}

// The choice of costs: T, R, C and the shortfall are stored.
#[unsafe(no_mangle)]
pub extern "C" fn lyra2_choose(
    key: usize,
    password: usize,
    salt: usize,
    words: usize,
    budget: u64,
    rounds: usize,
    tries: usize,
    values: &mut [usize; 4],
) -> u32
    ensures { stored_choice result values.new ≡ choice_answer (lengths_of key password salt) (limits_of words budget rounds tries) }
{
    let l = Lengths {
        key,
        password,
        salt,
    };
    let g = Limits {
        words,
        budget,
        rounds,
        tries,
    };
    store_choice(choosing::choose(l, g), values)
}

// The walk question: row1 of the Setup step that fills row0.
#[unsafe(no_mangle)]
pub extern "C" fn lyra2_walk(rows: usize, row0: usize, row1: &mut usize) -> u32
    ensures { (result ≡ (walk_answer rows row0).refusal) × (row1.new ≡ (walk_answer rows row0).row1) }
{
    store_number(walk_question::walk(rows, row0), row1)
}

// The recorded derivation: fills the key, the used matrix, the used record and the state after the last visit.
#[unsafe(no_mangle)]
pub extern "C" fn lyra2_derive_recorded(
    password: &[u8],
    salt: &[u8],
    time: usize,
    rows: usize,
    columns: usize,
    rounds: usize,
    rotation: usize,
    mixer: bool,
    key: &mut [u8],
    matrix: &mut [u64],
    record: &mut [u64],
    state: &mut [u64; 16],
    counts: &mut [u64; 3],
) -> u32
    ensures { Recorded (parameters time rows columns rounds rotation mixer) (input password.now salt.now (length key.old)) key.old matrix.old «record».old key.new matrix.new «record».new («counts-stored» result counts.new) state.new }
{
    let p = gathered(time, rows, columns, rounds, rotation, mixer);
    store_recording(
        recorded::derive_recorded(password, salt, p, key, matrix, record),
        state,
        counts,
    )
}

// The two numbers of a word of the record, which is any word.
#[unsafe(no_mangle)]
pub extern "C" fn lyra2_record_pair(word: u64, numbers: &mut [u64; 2])
    ensures { numbers.new ≡ low_of word ∷ high_of word ∷ [] }
{
    store_pair(Pair::from(word), numbers);
}

// Reads a login line: salt and key are put at the start of their outputs.
#[unsafe(no_mangle)]
pub extern "C" fn lyra2_line_read(
    line: &[u8],
    salt: &mut [u8],
    key: &mut [u8],
    values: &mut [usize; 5],
) -> u32
    ensures { Read line.now salt.old key.old salt.new key.new (stored_values result values.new) }
{
    store_values(line_reading::read_line(line, salt, key), values)
}

#[tactic(auto, using(c_answers::proofs::Given::length_given))]
// Writes a login line at the start of the output.
#[unsafe(no_mangle)]
pub extern "C" fn lyra2_line_write(
    time: usize,
    rows: usize,
    columns: usize,
    salt: &[u8],
    key: &[u8],
    line: &mut [u8],
    length: &mut usize,
) -> u32
    ensures { Written (values (stored_parameters time rows columns) salt.now key.now) line.old line.new (stored_length result length.new) }
{
    let p = StoredParameters {
        time,
        rows,
        columns,
    };
    store_number(line_writing::write_line(p, salt, key, line), length)
}

#[tactic(auto, using(c_answers::proofs::Given::place_given))]
// Finds an account in a book: the place of its mark is stored.
#[unsafe(no_mangle)]
pub extern "C" fn lyra2_book_find(book: &[u8], used: usize, number: u32, place: &mut usize) -> u32
    ensures { stored_place result place.new ≡ find_answer number used book.now }
{
    store_number(book_finding::find(book, used, number), place)
}

#[tactic(auto, using(c_answers::proofs::Given::place_given))]
// Adds an account to a book, in place of one of its number: the new used length is stored.
#[unsafe(no_mangle)]
pub extern "C" fn lyra2_book_add(
    book: &mut [u8],
    used: usize,
    number: u32,
    time: usize,
    rows: usize,
    columns: usize,
    salt: &[u8],
    key: &[u8],
    used_after: &mut usize,
) -> u32
    ensures { Added (account number (stored_parameters time rows columns) salt.now key.now) used book.old book.new (stored_place result used_after.new) }
{
    let p = StoredParameters {
        time,
        rows,
        columns,
    };
    store_number(
        book_changes::add(book, used, number, p, salt, key),
        used_after,
    )
}

#[tactic(auto, using(c_answers::proofs::Given::place_given))]
// Removes an account from a book: the new used length is stored.
#[unsafe(no_mangle)]
pub extern "C" fn lyra2_book_remove(
    book: &mut [u8],
    used: usize,
    number: u32,
    used_after: &mut usize,
) -> u32
    ensures { Removed number used book.old book.new (stored_place result used_after.new) }
{
    store_number(book_changes::remove(book, used, number), used_after)
}

// Checks a password against an account of a book: `same` becomes 1 where its key is the password's, else 0.
#[unsafe(no_mangle)]
pub extern "C" fn lyra2_book_check(
    password: &[u8],
    book: &[u8],
    used: usize,
    number: u32,
    matrix: &mut [u64],
    same: &mut u32,
    counts: &mut [u64; 3],
) -> u32
    ensures { AccountChecked password.now book.now used number matrix.old matrix.new («counts-stored» result counts.new) same.new }
{
    store_check(
        book_check::check_account(password, book, used, number, matrix),
        same,
        counts,
    )
}

#[tactic(auto, using(c_answers::proofs::Given::entry_is))]
// The account at a place of the used part of a book: its numbers are stored, and its size is returned, 0 where there is none.
#[unsafe(no_mangle)]
pub extern "C" fn lyra2_book_account(book: &[u8], place: usize, values: &mut [usize; 6]) -> usize
    ensures { stored_entry result values.new ≡ entry_of (drop place book.now) }
{
    store_entry(account_reader::account_at(book, place), values)
}
