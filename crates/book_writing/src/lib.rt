// The bytes of a book that change: an account is taken out, or put behind the others.
#![tactic(auto)]

ghost use Rattle.std.specs.Prelude.{◌≡◌, ◌++◌, ◌+◌, ◌-◌, ◌≤◌, length, get_or, take, drop, replicate};
ghost use Rattle.lists.specs.Zip.{zip_at};
ghost use Rattle.little_endian.specs.Bytes.{le_bytes};
ghost use Rattle.text.specs.Text.{Appended};
ghost use Rattle.accounts.specs.Accounts.{head_bytes, head, encode};
ghost use Rattle.accounts.specs.Promises.{account};

use little_endian::byte_of;
use settings::StoredParameters;
use text::append;

// The used byte so many bytes behind a place, 0 behind the last one.
fn used_byte(book: &[u8], used: usize, from: usize, i: usize) -> u8
    requires { (from ≤ used) × (used ≤ length book.now) }
    ensures { result ≡ get_or (drop from (take used book.now)) i 0 }
{
    book[from..used].get(i).copied().unwrap_or(0)
}

// Takes the bytes of an account out of the used part: the later ones move up, and those that are no longer used become zero. Both are done
// in one loop: of one that stores zeros alone the compiler would make a call of memset, a name from elsewhere.
pub fn take_out(book: &mut [u8], used: usize, place: usize, size: usize)
    requires { (place + size ≤ used) × (used ≤ length book.old) }
    ensures { book.new ≡ zip_at (λ x y. y) place book.old (drop (place + size) (take used book.old) ++ replicate size 0) }
{
    let from = place + size;
    for moved in 0..used - place {
        book[place + moved] = used_byte(book, used, from, moved);
    }
}

// Puts the n low bytes of a number at a place, and answers where they end.
fn append_number(book: &mut [u8], at: usize, x: u64, n: usize) -> usize
    requires { (n ≤ 8) × (at + n ≤ length book.old) }
    ensures appended { Appended book.old book.new at (le_bytes n x) result }
    ensures value { result ≡ at + n }
{
    for i in 0..n {
        book[at + i] = byte_of(x, i);
    }
    at + n
}

// Puts the mark and the numbers of an account at a place, and answers where they end.
fn append_head(
    book: &mut [u8],
    at: usize,
    number: u32,
    p: StoredParameters,
    salt: usize,
    key: usize,
) -> usize
    requires { at + head_bytes ≤ length book.old }
    ensures { Appended book.old book.new at (head number p salt key) result }
{
    let end = append(book, at, b"AC");
    let end = append_number(book, end, number as u64, 4);
    let end = append_number(book, end, p.time as u64, 1);
    let end = append_number(book, end, p.rows as u64, 2);
    let end = append_number(book, end, p.columns as u64, 2);
    let end = append_number(book, end, salt as u64, 1);
    append_number(book, end, key as u64, 2)
}

// Puts an account at a place, and answers where it ends.
pub fn append_account(
    book: &mut [u8],
    at: usize,
    number: u32,
    p: StoredParameters,
    salt: &[u8],
    key: &[u8],
) -> usize
    requires { at + (head_bytes + length salt.now + length key.now) ≤ length book.old }
    ensures { Appended book.old book.new at (encode (account number p salt.now key.now)) result }
{
    let end = append_head(book, at, number, p, salt.len(), key.len());
    let end = append(book, end, salt);
    append(book, end, key)
}
