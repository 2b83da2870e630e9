// Going over a book from account to account: whether it is a run of whole ones, and where the account of a number is.
#![tactic(auto)]

ghost use Rattle.std.specs.Prelude.{◌≡◌, true};
ghost use Rattle.accounts.specs.Accounts.{accounts};
ghost use Rattle.accounts.specs.Book.{is_run, place_of};

use account_reader::Reader;

// Whether the bytes are whole accounts within the limits and nothing else.
pub fn is_run(book: &[u8]) -> bool
    ensures { result ≡ is_run book.now }
{
    let mut end = 0;
    for account in Reader::new(book, 0) {
        end += account.size;
    }
    end == book.len()
}

// The place of the account of a number, the end where there is none.
pub fn place_of(book: &[u8], number: u32) -> usize
    requires { is_run book.now ≡ true }
    ensures { result ≡ place_of number (accounts book.now) }
{
    let mut place = 0;
    for account in Reader::new(book, 0) {
        if account.number == number {
            return place;
        }
        place += account.size;
    }
    place
}
