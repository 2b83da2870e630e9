// Bytes of base 64, place by place, and which texts are base 64. A branch goes by a place or a length, never by a letter's value, but for
// text that is refused: keys are secret. Bits are taken by shifts, since a division by a variable takes a time that tells its operands.
#![tactic(auto)]

ghost use Rattle.std.specs.Prelude.{◌≡◌, ◌-◌, ◌%◌, ◌≤◌, ◌<◌, eqb, length};
ghost use Rattle.lists.specs.Zip.{put_into};
ghost use Rattle.base64_encoding.specs.Base64.{value_at, octet, decoded_length, decode, unused, all_letters, is_text};

use base64_letters::value;

// The value of the letter at a place, that of A past the end, 0.
#[tactic(auto, using(base64_letters::proofs::LetterLaws::value_most), unfolding(base64_encoding::specs::Base64::value_at))]
fn value_at(text: &[u8], i: usize) -> usize
    ensures { (result ≡ value_at text.now i) × (result ≤ 64) }
{
    value(text.get(i).copied().unwrap_or(b'A'))
}

// The eight bits of byte j.
#[tactic(auto, unfolding(base64_encoding::specs::Base64::decoded_length))]
fn octet(text: &[u8], j: usize) -> u8
    requires { j < decoded_length (length text.now) }
    ensures { result ≡ octet text.now j }
{
    let at = 4 * (j / 3);
    let bits = ((value_at(text, at) * 64 + value_at(text, at + 1)) * 64 + value_at(text, at + 2))
        * 64
        + value_at(text, at + 3);
    ((bits >> (16 - 8 * (j % 3))) % 256) as u8
}

#[tactic(auto, unfolding(base64_encoding::specs::Base64::decoded_length))]
pub fn decoded_length(n: usize) -> usize
    ensures { result ≡ decoded_length n }
{
    n / 4 * 3 + n % 4 * 3 / 4
}

// Puts the bytes of a text in front; what stands after them is kept.
pub fn put_decoded(text: &[u8], out: &mut [u8])
    requires { decoded_length (length text.now) ≤ length out.old }
    ensures { out.new ≡ put_into out.old (decode text.now) }
{
    let n = decoded_length(text.len());
    for j in 0..n {
        out[j] = octet(text, j);
    }
}

// The last of 4 g + 2 letters has four bits that no byte takes, the last of 4 g + 3 has two.
#[tactic(auto, using(std::proofs::lemmas::Bool::Decides::nat_tests), unfolding(base64_encoding::specs::Base64::unused))]
fn unused_bits_zero(text: &[u8]) -> bool
    ensures { result ≡ eqb (value_at text.now (length text.now - 1) % unused (length text.now)) 0 }
{
    let n = text.len();
    match n % 4 {
        2 => value_at(text, n - 1) % 16 == 0,
        3 => value_at(text, n - 1) % 4 == 0,
        _ => true,
    }
}

fn all_letters(text: &[u8]) -> bool
    ensures { result ≡ all_letters text.now }
{
    text.iter().all(|byte| value(*byte) < 64)
}

#[tactic(auto, using(std::proofs::lemmas::Bool::Decides::nat_tests), unfolding(base64_encoding::specs::Base64::is_text))]
pub fn is_text(text: &[u8]) -> bool
    ensures { result ≡ is_text text.now }
{
    all_letters(text) && text.len() % 4 != 1 && unused_bits_zero(text)
}
