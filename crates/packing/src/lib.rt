// The words of the visit record: each holds two rows or two columns.
#![tactic(auto)]

ghost use Rattle.std.specs.Prelude.{◌≡◌, ◌<◌, set};
ghost use Rattle.packing.specs.Packing.{pair_factor, packed, low_of, high_of};

// Stores two numbers in one word of the record, where the record reaches that far.
pub fn note(record: &mut [u64], at: usize, low: usize, high: usize)
    requires { (low < pair_factor) × (high < pair_factor) }
    ensures { «record».new ≡ set «record».old at (packed low high) }
{
    if at < record.len() {
        record[at] = (low + 65_536 * high) as u64;
    }
}

// The two numbers of a word.
#[derive(Clone, Copy)]
pub struct Pair {
    pub low: usize,
    pub high: usize,
}

// Of any word, also of one that no derivation writes.
impl From<u64> for Pair {
    ghost from_gives = { λ word pair. (pair.low ≡ low_of word) × (pair.high ≡ high_of word) };

    fn from(word: u64) -> Pair {
        Pair {
            low: (word % 65_536) as usize,
            high: (word / 65_536) as usize,
        }
    }
}
