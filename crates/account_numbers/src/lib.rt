// Whether the numbers of a book's accounts are distinct. No memory is lent to remember them in, so a block of them at a time is held on the
// stack and compared with all behind it.
#![tactic(auto)]

ghost use Rattle.std.specs.Prelude.{◌≡◌, true, ◌<◌, length};
ghost use Rattle.accounts.specs.Accounts.{accounts};
ghost use Rattle.accounts.specs.Book.{distinct, is_run, Running};
ghost use Rattle.account_numbers.specs.Numbers.{numbers_from, differ, meet, Collected};

use account_reader::Reader;

// How many numbers are held at a time.
const BLOCK: usize = 128;

// Whether all of some numbers differ.
fn all_differ(numbers: &[u32]) -> bool
    ensures { result ≡ differ numbers.now }
{
    for (i, number) in numbers.iter().enumerate() {
        if numbers[i + 1..].contains(number) {
            return false;
        }
    }
    true
}

// Puts the numbers of a reader's next accounts into a block, as many as it has room for, and answers how many.
fn collect(reader: &mut Reader<'_>, block: &mut [u32]) -> usize
    requires { Running reader.old.book.now reader.old.at × (0 < length block.old) }
    ensures collected { Collected reader.old.book.now reader.old.at block.new result reader.new.at }
    ensures same_book { reader.new.book ≡ reader.old.book }
    ensures block_len_unchanged { length block.new ≡ length block.old }
{
    for i in 0..block.len() {
        let Some(account) = reader.next() else {
            return i;
        };
        block[i] = account.number;
    }
    block.len()
}

// Whether one of a reader's next accounts has one of the numbers of a block.
fn meets(reader: Reader<'_>, block: &[u32]) -> bool
    requires { Running reader.book.now reader.at }
    ensures { result ≡ meet block.now (numbers_from reader.entry.book.now reader.entry.at) }
{
    for account in reader {
        if block.contains(&account.number) {
            return true;
        }
    }
    false
}

// Whether no two accounts of a run have the same number.
pub fn are_distinct(book: &[u8]) -> bool
    requires { is_run book.now ≡ true }
    ensures { result ≡ distinct (accounts book.now) }
{
    // Whatever the block holds before, but no number that the compiler knows, and each written by itself: of zeros, its own for a local too
    // that it doesn't see written whole, the compiler would make a call of memset.
    let x = (book.len() % 65_536) as u32;
    let mut block: [u32; BLOCK] = [
        x, x, x, x, x, x, x, x, x, x, x, x, x, x, x, x, x, x, x, x, x, x, x, x, x, x, x, x, x, x,
        x, x, x, x, x, x, x, x, x, x, x, x, x, x, x, x, x, x, x, x, x, x, x, x, x, x, x, x, x, x,
        x, x, x, x, x, x, x, x, x, x, x, x, x, x, x, x, x, x, x, x, x, x, x, x, x, x, x, x, x, x,
        x, x, x, x, x, x, x, x, x, x, x, x, x, x, x, x, x, x, x, x, x, x, x, x, x, x, x, x, x, x,
        x, x, x, x, x, x, x, x,
    ];
    let mut reader = Reader::new(book, 0);
    while reader.at < book.len() {
        let count = collect(&mut reader, &mut block);
        let numbers = &block[..count];
        if !all_differ(numbers) || meets(reader, numbers) {
            return false;
        }
    }
    true
}
