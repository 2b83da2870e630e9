// Base 64 of bytes, place by place. A branch goes by a place or a length, never by a byte's value: keys are secret. Bits are taken by shifts,
// since a division by a variable takes a time that tells its operands.
#![tactic(auto)]

ghost use Rattle.std.specs.Prelude.{◌≡◌, ◌+◌, ◌^◌, ◌≤◌, ◌<◌, length, get_or};
ghost use Rattle.text.specs.Text.{Appended};
ghost use Rattle.base64_encoding.specs.Base64.{sextet, encoded_length, encode};

use base64_letters::letter;

// The byte at a place, 0 past the end.
fn byte_at(bytes: &[u8], i: usize) -> usize
    ensures { (result ≡ get_or bytes.now i 0) × (result < 256) }
{
    usize::from(bytes.get(i).copied().unwrap_or(0))
}

// The six bits of letter i.
fn sextet(bytes: &[u8], i: usize) -> usize
    ensures { result ≡ sextet bytes.now i }
{
    let at = 3 * (i / 4);
    let bits = (byte_at(bytes, at) * 256 + byte_at(bytes, at + 1)) * 256 + byte_at(bytes, at + 2);
    (bits >> (18 - 6 * (i % 4))) % 64
}

#[tactic(auto, unfolding(crate::specs::Base64::encoded_length))]
pub fn encoded_length(n: usize) -> usize
    requires { n < 2 ^ 32 }
    ensures { result ≡ encoded_length n }
{
    (4 * n + 2) / 3
}

// Puts the text of bytes at a place, and answers where it ends.
pub fn append_encoded(out: &mut [u8], at: usize, bytes: &[u8]) -> usize
    requires { (length bytes.now < 2 ^ 32) × (at + encoded_length (length bytes.now) ≤ length out.old) }
    ensures { Appended out.old out.new at (encode bytes.now) result }
{
    let n = encoded_length(bytes.len());
    for i in 0..n {
        out[at + i] = letter(sextet(bytes, i));
    }
    at + n
}
