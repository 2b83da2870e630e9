// Whether the used bytes of a slice are a book, and finding an account in it.
#![tactic(auto)]

ghost use Rattle.std.specs.Prelude.{◌≡◌, MatchResult};
ghost use Rattle.accounts.specs.Promises.{place_answer, find_answer};
ghost use Rattle.book_finding.specs.Used.{IsUsed, IsNoBook};

use account_numbers::are_distinct;
use book_search::{is_run, place_of};
use refusals::Refusal;

// The used bytes, if the used length is within the slice and they are whole accounts with distinct numbers.
pub fn used_book<'a>(book: &'a [u8], used: usize) -> Result<&'a [u8], Refusal>
    ensures { MatchResult result (IsUsed used book.now) (IsNoBook used book.now) }
{
    match book.get(..used) {
        Some(part) if is_run(part) && are_distinct(part) => Ok(part),
        _ => Err(Refusal::BookForm),
    }
}

// The place of the account of a number.
pub fn find(book: &[u8], used: usize, number: u32) -> Result<usize, Refusal>
    ensures { place_answer result ≡ find_answer number used book.now }
{
    let place = place_of(used_book(book, used)?, number);
    if place == used {
        return Err(Refusal::NoAccount);
    }
    Ok(place)
}
