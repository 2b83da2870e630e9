// When a call is turned down: the first check that refuses, in the operation's order.
#![tactic(auto)]

ghost use Rattle.std.specs.Prelude.{◌≡◌, [], ◌∷◌};
ghost use Rattle.refusals.specs.Checks.{first, range, at_least, length_checks, cost_checks, stored_checks, walk_checks, rows_check};
ghost use Rattle.refusals.specs.Refusals.{number_of, answer_number};

use settings::{Lengths, Parameters, StoredParameters};

// The check that turns a call down; a variant's number is the one that callers in C are told.
#[derive(Clone, Copy, PartialEq, Eq, Debug)]
pub enum Refusal {
    KeyLength = 1,
    PasswordLength = 2,
    SaltTooShort = 3,
    TimeCost = 4,
    RowCount = 5,
    ColumnCount = 6,
    MatrixLength = 7,
    RecordLength = 8,
    SetupRow = 9,
    SaltTooLong = 10,
    LineForm = 11,
    OutputLength = 12,
    RoundCount = 13,
    Rotation = 14,
    TryCount = 15,
    NothingFits = 16,
    BookForm = 17,
    NoAccount = 18,
    BookLength = 19,
    LaneCount = 20,
}

impl From<Refusal> for u32 {
    ghost from_gives = { λ refusal number. number ≡ number_of refusal };

    fn from(refusal: Refusal) -> u32 {
        refusal as u32
    }
}

pub const MAX_KEY: usize = 1024;

pub const MAX_PASSWORD: usize = 1024;

pub const MIN_SALT: usize = 8;

pub const MAX_SALT: usize = 64;

pub const MAX_TIME: usize = 255;

pub const MIN_ROWS: usize = 3;

pub const MAX_ROWS: usize = 16384;

pub const MAX_COLUMNS: usize = 256;

pub const MAX_LANES: usize = 8;

pub const MIN_LANE_ROWS: usize = 4;

pub const MAX_ROUNDS: usize = 12;

pub const MAX_ROTATION: usize = 11;

#[tactic(auto, unfolding(crate::specs::Checks::first))]
// A check of a value that has a least and a most.
pub fn within(least: usize, most: usize, x: usize, refusal: Refusal) -> Result<(), Refusal>
    ensures { answer_number result ≡ first (range (number_of refusal) least most x ∷ []) }
{
    if least <= x && x <= most {
        Ok(())
    } else {
        Err(refusal)
    }
}

#[tactic(auto, unfolding(crate::specs::Checks::first))]
// A check of a value that has only a least.
pub fn at_least(least: usize, x: usize, refusal: Refusal) -> Result<(), Refusal>
    ensures { answer_number result ≡ first (at_least (number_of refusal) least x ∷ []) }
{
    if least <= x { Ok(()) } else { Err(refusal) }
}

// The checks of the lengths.
pub fn check_lengths(l: Lengths) -> Result<(), Refusal>
    ensures { answer_number result ≡ first (length_checks l) }
{
    within(1, MAX_KEY, l.key, Refusal::KeyLength)?;
    within(0, MAX_PASSWORD, l.password, Refusal::PasswordLength)?;
    at_least(MIN_SALT, l.salt, Refusal::SaltTooShort)?;
    within(0, MAX_SALT, l.salt, Refusal::SaltTooLong)
}

// The checks of the lengths, T, R, C and ρ.
pub fn check_costs(l: Lengths, p: Parameters) -> Result<(), Refusal>
    ensures { answer_number result ≡ first (cost_checks l p) }
{
    check_lengths(l)?;
    within(0, MAX_TIME, p.time, Refusal::TimeCost)?;
    within(MIN_ROWS, MAX_ROWS, p.rows, Refusal::RowCount)?;
    within(1, MAX_COLUMNS, p.columns, Refusal::ColumnCount)?;
    within(1, MAX_ROUNDS, p.rounds, Refusal::RoundCount)
}

// The checks of what is kept of an operator. They are those of the cost question but for the password's length and ρ: no password is
// too short, and the usual ρ is within its limits.
pub fn check_stored(key: usize, salt: usize, p: StoredParameters) -> Result<(), Refusal>
    ensures { answer_number result ≡ first (stored_checks key salt p) }
{
    let l = Lengths {
        key,
        password: 0,
        salt,
    };
    check_costs(l, Parameters::usual(p))
}

// Check 5 alone, of R: what the walk program asks.
pub fn check_rows(rows: usize) -> Result<(), Refusal>
    ensures { answer_number result ≡ first (rows_check rows ∷ []) }
{
    within(MIN_ROWS, MAX_ROWS, rows, Refusal::RowCount)
}

// Checks 5 and 9, of R and of a Setup step's row.
pub fn check_walk(rows: usize, row0: usize) -> Result<(), Refusal>
    ensures { answer_number result ≡ first (walk_checks rows row0) }
{
    check_rows(rows)?;
    within(3, rows - 1, row0, Refusal::SetupRow)
}
