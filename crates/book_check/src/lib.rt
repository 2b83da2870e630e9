// The check of a password against an account of a book.
#![tactic(auto)]

ghost use Rattle.std.specs.Prelude.{◌≡◌, true, drop};
ghost use Rattle.checking.specs.Answers.{checked_costs, checked_same};
ghost use Rattle.accounts.specs.Accounts.{account_of, is_whole};
ghost use Rattle.book_check.specs.Promises.{KeyChecked, AccountChecked};

use account_heads::HEAD_BYTES;
use account_reader::account_at;
use book_finding::find;
use checking::{Checked, check};
use refusals::{MAX_PASSWORD, Refusal, within};
use settings::Parameters;

// The check with the account at a place of the used part.
fn check_at(
    password: &[u8],
    part: &[u8],
    place: usize,
    matrix: &mut [u64],
) -> Result<Checked, Refusal>
    requires { is_whole (drop place part.now) ≡ true }
    ensures { KeyChecked password.now (account_of (drop place part.now)) matrix.old matrix.new (checked_costs result) (checked_same result) }
{
    let account = account_at(part, place).unwrap();
    let salt_from = place + HEAD_BYTES;
    let key_from = salt_from + account.salt;
    let salt = &part[salt_from..key_from];
    let key = &part[key_from..key_from + account.key];
    check(
        password,
        salt,
        Parameters::usual(account.parameters),
        key,
        matrix,
    )
}

// Whether an account's key is that of a password. The used matrix is left as zeros.
pub fn check_account(
    password: &[u8],
    book: &[u8],
    used: usize,
    number: u32,
    matrix: &mut [u64],
) -> Result<Checked, Refusal>
    ensures { AccountChecked password.now book.now used number matrix.old matrix.new (checked_costs result) (checked_same result) }
{
    within(0, MAX_PASSWORD, password.len(), Refusal::PasswordLength)?;
    let place = find(book, used, number)?;
    check_at(password, &book[..used], place, matrix)
}
