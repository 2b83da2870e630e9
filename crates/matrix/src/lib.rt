// The lent matrix: its cells, and what is written to them from the sponge's output.
#![tactic(auto)]

ghost use Rattle.std.specs.Prelude.{◌≡◌, ◌⊎◌, ◌+◌, ◌≤◌, ◌<◌, length};
ghost use Rattle.std.specs.Int.Bits.{bit_xor};
ghost use Rattle.lists.specs.Zip.{zip_at, xor_into};
ghost use Rattle.profile.specs.Profile.{cell_words};
ghost use Rattle.rate.specs.Rate.{rand as «rand-of»};
ghost use Rattle.places.specs.Places.{cell_start};
ghost use Rattle.matrix.specs.Cells.{cell_from, ApartCells, rotated};

use places::{Column, RowStart};
use profile::Profile;
use rate::output;

// The twelve words of the cell in a column of the row that starts there, as a part of the matrix.
pub fn cell(m: &[u64], row: RowStart, col: Column) -> &[u64]
    requires { cell_start row col.0 + cell_words ≤ length m.now }
    ensures result_value { result.now ≡ cell_from (cell_start row col.0) m.now }
    ensures result_len { length result.now ≡ cell_words }
{
    let a = row.cell_start(col);
    &m[a..a + Profile::CELL_WORDS]
}

// A cell XORed with twelve words.
pub fn xored(cell: &[u64], words: &[u64]) -> [u64; Profile::CELL_WORDS]
    requires { (length cell.now ≡ cell_words) × (length words.now ≡ cell_words) }
    ensures { result ≡ xor_into cell.now words.now }
{
    let mut r = [0; Profile::CELL_WORDS];
    for j in 0..Profile::CELL_WORDS {
        r[j] = cell[j] ^ words[j];
    }
    r
}

// A cell is written from words that the caller has copied: the compiler then knows that no store to the matrix changes them.
// Twelve words put in place of the cell that starts at a.

pub fn put_cell(m: &mut [u64], a: usize, words: &[u64])
    requires { (a + cell_words ≤ length m.old) × (length words.now ≡ cell_words) }
    ensures { m.new ≡ zip_at (λ x y. y) a m.old words.now }
{
    for j in 0..Profile::CELL_WORDS {
        m[a + j] = words[j];
    }
}

// Twelve words XORed into the cell that starts at a.
pub fn xor_cell(m: &mut [u64], a: usize, words: &[u64])
    requires { (a + cell_words ≤ length m.old) × (length words.now ≡ cell_words) }
    ensures { m.new ≡ zip_at bit_xor a m.old words.now }
{
    for j in 0..Profile::CELL_WORDS {
        m[a + j] ^= words[j];
    }
}

// The first twelve words, rotated by fewer than twelve, XORed into the cell that starts at a.
pub fn xor_turned(m: &mut [u64], a: usize, words: &[u64], by: usize)
    requires { (a + cell_words ≤ length m.old) × (cell_words ≤ length words.now) × (by < cell_words) }
    ensures { m.new ≡ zip_at bit_xor a m.old (rotated by words.now) }
{
    for j in 0..Profile::CELL_WORDS {
        m[a + j] ^= words[(j + by) % Profile::CELL_WORDS];
    }
}

// The output of a state, of which a copy is given, rotated by omega and XORed into the cell that starts at a. In each arm the compiler
// knows the number, so that no place is worked out while the code runs.
fn xor_rotated(m: &mut [u64], a: usize, rand: &[u64], s: &[u64; 16], omega: usize)
    requires { (a + cell_words ≤ length m.old) × (length rand.now ≡ cell_words) × (rand.now ≡ «rand-of» s.now) }
    ensures { m.new ≡ zip_at bit_xor a m.old (rotated omega («rand-of» s.now)) }
{
    match omega {
        1 => xor_turned(m, a, rand, 1),
        2 => xor_turned(m, a, rand, 2),
        3 => xor_turned(m, a, rand, 3),
        4 => xor_turned(m, a, rand, 4),
        5 => xor_turned(m, a, rand, 5),
        6 => xor_turned(m, a, rand, 6),
        7 => xor_turned(m, a, rand, 7),
        8 => xor_turned(m, a, rand, 8),
        9 => xor_turned(m, a, rand, 9),
        10 => xor_turned(m, a, rand, 10),
        11 => xor_turned(m, a, rand, 11),
        // No derivation comes here. The state is read where it stands, so that the copy never has to be in memory.
        _ => xor_turned(m, a, s, omega % Profile::CELL_WORDS),
    }
}

// What a column writes, for any omega: the cell at `from` XORed with the output, in place of the cell at `to`; then the output, rotated,
// XORed into the cell at `back`. The code turns this order round, which changes nothing where the first write is an XOR too or `back` is
// apart: the compiler then reads the output in the same pairs of words for odd omega as for even, and each pair once.
pub fn write_rotated(
    m: &mut [u64],
    from: usize,
    to: usize,
    back: usize,
    s: &[u64; 16],
    omega: usize,
)
    requires cell_words_in_bounds { (from + cell_words ≤ length m.old) × (to + cell_words ≤ length m.old) × (back + cell_words ≤ length m.old) }
    requires fact { (from ≡ to) ⊎ (ApartCells back from × ApartCells back to) }
    ensures { m.new ≡ zip_at bit_xor back (zip_at (λ x y. y) to m.old (xor_into (cell_from from m.old) («rand-of» s.now))) (rotated omega («rand-of» s.now)) }
{
    let rand = output(s);
    xor_rotated(m, back, &rand, s, omega);
    let words = xored(&m[from..from + Profile::CELL_WORDS], &rand);
    put_cell(m, to, &words);
}
