// Words as bytes, the lowest byte first.
#![tactic(auto)]

ghost use Rattle.std.specs.Prelude.{◌≡◌, ◌+◌, ◌*◌, ◌≤◌, ◌<◌, length, take, drop, get_or};
ghost use Rattle.little_endian.specs.Bytes.{le_value, le_bytes, le_words};

// The number that n bytes from byte `at` on stand for.
pub fn load_number(bytes: &[u8], at: usize, n: usize) -> u64
    requires { (n ≤ 8) × (at + n ≤ length bytes.now) }
    ensures { result ≡ le_value (take n (drop at bytes.now)) }
{
    let mut v: u64 = 0;
    for i in (0..n).rev() {
        v = v * 256 + u64::from(bytes[at + i]);
    }
    v
}

// Fills words from the start of bytes.
pub fn load_words(bytes: &[u8], words: &mut [u64])
    requires { 8 * length words.old ≤ length bytes.now }
    ensures { words.new ≡ le_words (length words.old) bytes.now }
{
    for i in 0..words.len() {
        words[i] = load_number(bytes, 8 * i, 8);
    }
}

// Byte k of a word.
pub fn byte_of(x: u64, k: usize) -> u8
    requires { k < 8 }
    ensures { result ≡ get_or (le_bytes 8 x) k 0 }
{
    ((x >> (8 * k)) % 256) as u8
}
