// What stands in front of the bytes of a book of accounts: the core of the reader.
#![tactic(auto)]

ghost use Rattle.std.specs.Prelude.{◌≡◌, ◌+◌, ◌*◌, ◌≤◌, ◌<◌, ◌^◌, length};
ghost use Rattle.accounts.specs.Accounts.{head_bytes, number_at, head_of, whole_entry};

use accounts::Entry;
use little_endian::load_number;
use refusals::check_stored;
use settings::StoredParameters;
use text::stands_at;

// The bytes of an account before its salt.
pub const HEAD_BYTES: usize = 14;

// The number of so many bytes at a place.
fn number_at(bytes: &[u8], place: usize, width: usize) -> usize
    requires { (width ≤ 8) × (place + width ≤ length bytes.now) }
    ensures value { result ≡ number_at place width bytes.now }
    ensures upper_bound { result < 2 ^ (8 * width) }
{
    load_number(bytes, place, width) as usize
}

// What the head in front says.
fn head_of(bytes: &[u8]) -> Entry
    requires { head_bytes ≤ length bytes.now }
    ensures { result ≡ head_of bytes.now }
{
    let salt = number_at(bytes, 11, 1);
    let key = number_at(bytes, 12, 2);
    Entry {
        size: HEAD_BYTES + salt + key,
        number: number_at(bytes, 2, 4) as u32,
        parameters: StoredParameters {
            time: number_at(bytes, 6, 1),
            rows: number_at(bytes, 7, 2),
            columns: number_at(bytes, 9, 2),
        },
        salt,
        key,
    }
}

// The account in front, if a whole one within the limits stands there.
pub fn whole_entry(bytes: &[u8]) -> Option<Entry>
    ensures { result ≡ whole_entry bytes.now }
{
    if bytes.len() < HEAD_BYTES || !stands_at(bytes, 0, b"AC") {
        return None;
    }
    let entry = head_of(bytes);
    check_stored(entry.key, entry.salt, entry.parameters).ok()?;
    (entry.size <= bytes.len()).then_some(entry)
}
