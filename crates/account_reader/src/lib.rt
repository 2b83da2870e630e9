// A reader over a lent book of accounts, which steps from account to account: the book's slice and a place in it.
#![tactic(auto)]

ghost use Rattle.std.specs.Prelude.{◌≡◌, ◌-◌, length, drop};
ghost use Rattle.std.specs.Iterator.{at_most};
ghost use Rattle.accounts.specs.Accounts.{whole_entry};
ghost use Rattle.account_reader.specs.Steps.{Steps};

use accounts::Entry;

#[derive(Clone, Copy)]
pub struct Reader<'a> {
    pub book: &'a [u8],
    pub at: usize,
}

impl<'a> Reader<'a> {
    pub fn new(book: &'a [u8], at: usize) -> Reader<'a>
        ensures { (result.book ≡ book.entry) × (result.at ≡ at) }
    {
        Reader { book, at }
    }

    // The account at its place, if a whole one stands there.
    pub fn account(&self) -> Option<Entry>
        ensures { result ≡ whole_entry (drop self.now.at self.now.book.now) }
    {
        account_heads::whole_entry(self.book.get(self.at..)?)
    }
}

// Each account in turn; a reader stops where no whole one stands.
impl<'a> Iterator for Reader<'a> {
    type Item = Entry;

    ghost next_gives = { Steps };

    ghost remaining = { λ s. at_most (length s.book.now - s.at) };

    fn next(&mut self) -> Option<Entry> {
        let account = self.account()?;
        self.at += account.size;
        Some(account)
    }
}

// What a reader at a place tells.
pub fn account_at(book: &[u8], at: usize) -> Option<Entry>
    ensures { result ≡ whole_entry (drop at book.now) }
{
    Reader::new(book, at).account()
}
