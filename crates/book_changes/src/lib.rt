// Adding an account to a book, and removing one. Nothing is changed before all checks are passed.
#![tactic(auto)]

ghost use Rattle.std.specs.Prelude.{◌≡◌, false, length, drop};
ghost use Rattle.refusals.specs.Checks.{first, refuses, stored_checks};
ghost use Rattle.accounts.specs.Accounts.{entry_of};
ghost use Rattle.accounts.specs.Promises.{account, good_book, place_answer, Removed, Added};

use account_heads::HEAD_BYTES;
use account_reader::account_at;
use book_finding::{find, used_book};
use book_search::place_of;
use book_writing::{append_account, take_out};
use refusals::{Refusal, check_stored};
use settings::StoredParameters;

// The bytes of the account at a place, none where there is none.
fn size_at(part: &[u8], place: usize) -> usize
    ensures { result ≡ (entry_of (drop place part.now)).size }
{
    account_at(part, place).map_or(0, |account| account.size)
}

// Removes the account of a number; the later ones move up. It answers where the used part then ends.
pub fn remove(book: &mut [u8], used: usize, number: u32) -> Result<usize, Refusal>
    ensures { Removed number used book.old book.new (place_answer result) }
{
    let found = find(book, used, number)?;
    let size = size_at(&book[..used], found);
    take_out(book, used, found, size);
    Ok(used - size)
}

// Puts an account within the limits last in a book, once one of its number is taken out, if there is room for all.
fn add_to_book(
    book: &mut [u8],
    used: usize,
    number: u32,
    p: StoredParameters,
    salt: &[u8],
    key: &[u8],
) -> Result<usize, Refusal>
    requires { (first (stored_checks (length key.now) (length salt.now) p) ≡ 0) × (refuses (good_book used book.old) ≡ false) }
    ensures { Added (account number p salt.now key.now) used book.old book.new (place_answer result) }
{
    let place = place_of(&book[..used], number);
    let size = size_at(&book[..used], place);
    let kept = used - size;
    if book.len() - kept < HEAD_BYTES + salt.len() + key.len() {
        return Err(Refusal::BookLength);
    }
    take_out(book, used, place, size);
    Ok(append_account(book, kept, number, p, salt, key))
}

// Puts an account last, and answers where the used part then ends.
pub fn add(
    book: &mut [u8],
    used: usize,
    number: u32,
    p: StoredParameters,
    salt: &[u8],
    key: &[u8],
) -> Result<usize, Refusal>
    ensures { Added (account number p salt.now key.now) used book.old book.new (place_answer result) }
{
    check_stored(key.len(), salt.len(), p)?;
    used_book(book, used)?;
    add_to_book(book, used, number, p, salt, key)
}
