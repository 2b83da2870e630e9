// The padded input, byte by byte as it is asked for. No copy of the password is made.
#![tactic(auto)]

ghost use Rattle.std.specs.Prelude.{◌≡◌, ◌+◌, ◌*◌, ◌≤◌, ◌<◌, length, get_or, take, drop};
ghost use Rattle.little_endian.specs.Bytes.{le_value};
ghost use Rattle.padded_input.specs.Padded.{Short, block_bytes, padding, padded, blocks};

use little_endian::byte_of;
use profile::Profile;

pub const BLOCK_BYTES: usize = 8 * Profile::BLOCK_WORDS;

pub const NUMBER_BYTES: usize = 4;

// Byte i of n padded bytes. Where only one byte is padded, it is both the first and the last.
fn padding_byte(n: usize, i: usize) -> u8
    requires { 0 < n }
    ensures { result ≡ get_or (padding n) i 0 }
{
    if i == n - 1 {
        if i == 0 {
            return 0x81;
        }
        return 0x01;
    }
    if i == 0 {
        return 0x80;
    }
    0
}

// Byte i of the padded input.
fn input_byte(password: &[u8], salt: &[u8], numbers: &[u64], i: usize) -> u8
    requires { Short (length password.now) (length salt.now) (length numbers.now) }
    ensures { result ≡ get_or (padded password.now salt.now numbers.now) i 0 }
{
    if i < password.len() {
        return password[i];
    }
    let j = i - password.len();
    if j < salt.len() {
        return salt[j];
    }
    let k = j - salt.len();
    let n = NUMBER_BYTES * numbers.len();
    if k < n {
        return byte_of(numbers[k / NUMBER_BYTES], k % NUMBER_BYTES);
    }
    let used = password.len() + salt.len() + n;
    padding_byte(BLOCK_BYTES - used % BLOCK_BYTES, k - n)
}

// The word at byte `at` of the padded input.
pub fn input_word(password: &[u8], salt: &[u8], numbers: &[u64], at: usize) -> u64
    requires { Short (length password.now) (length salt.now) (length numbers.now) × (at + 8 ≤ block_bytes * blocks (length password.now) (length salt.now) (length numbers.now)) }
    ensures { result ≡ le_value (take 8 (drop at (padded password.now salt.now numbers.now))) }
{
    let mut v: u64 = 0;
    for i in (0..8).rev() {
        v = v * 256 + u64::from(input_byte(password, salt, numbers, at + i));
    }
    v
}
