// Rows and columns picked by words of the output.
#![tactic(auto)]

ghost use Rattle.std.specs.Prelude.{◌≡◌, ◌+◌, ◌-◌, ◌%◌, ◌<◌};
ghost use Rattle.std.specs.Int.Bits.{bit_and};
ghost use Rattle.profile.specs.Profile.{cell_words};
ghost use Rattle.settings.specs.Settings.{settings};
ghost use Rattle.columns.specs.Bounds.{Picked};

use columns::Picks;
use places::Column;
use profile::Profile;
use settings::Parameters;

// The remainder of a word, as a row or a column number.
pub fn picked(word: u64, n: usize) -> usize
    requires { 0 < n }
    ensures value { result ≡ word % n }
    ensures upper_bound { result < n }
{
    (word % (n as u64)) as usize
}

// The low bits of a word, below those of n - 1.
fn masked(word: u64, n: usize) -> usize
    requires { 0 < n }
    ensures { result ≡ bit_and word (n - 1) }
{
    (word & (n as u64 - 1)) as usize
}

// The same as `picked` for columns, whose number is mostly a power of two: the low bits are then the remainder.
fn picked_column(word: u64, n: usize) -> usize
    requires { 0 < n }
    ensures value { result ≡ word % n }
    ensures upper_bound { result < n }
{
    match n {
        16 | 32 | 64 | 128 | 256 => masked(word, n),
        _ => picked(word, n),
    }
}

// The place in the output of the word that is omega after another. It depends on omega alone, so that the compiler finds it once before
// the loop over the columns.
pub fn place_after(place: usize, omega: usize) -> usize
    requires { place < cell_words }
    ensures value { result ≡ (place + omega) % cell_words }
    ensures upper_bound { result < cell_words }
{
    (place + omega % Profile::CELL_WORDS) % Profile::CELL_WORDS
}

// The columns that a visit picks from the output.
pub fn pick_columns(s: &[u64; 16], p: Parameters) -> Picks
    requires { 0 < p.columns }
    ensures { Picked (settings p) s.now result }
{
    let second = place_after(place_after(0, p.rotation), p.rotation);
    let third = place_after(second, p.rotation);
    Picks {
        col0: Column(picked_column(s[second], p.columns)),
        col1: Column(picked_column(s[third], p.columns)),
    }
}
