// Numbers in decimal digits, written into a lent buffer and read.
#![tactic(auto)]

ghost use Rattle.std.specs.Prelude.{◌≡◌, ◌+◌, ◌*◌, ◌/◌, ◌%◌, ◌^◌, ◌≤◌, ◌<◌, min, length};
ghost use Rattle.text.specs.Text.{Appended};
ghost use Rattle.decimal.specs.Decimal.{decimal, number_of, all_digits, is_number};

// How many digits n has.
pub fn decimal_length(n: usize) -> usize
    requires { n < 100000 }
    ensures { result ≡ length (decimal n) }
{
    n.checked_ilog10().map_or(1, |power| power as usize + 1)
}

// The digit with so many digits behind it.
fn digit(n: usize, place: usize) -> u8
    requires { place < 5 }
    ensures { result ≡ 48 + n / 10 ^ place % 10 }
{
    let powers = [1, 10, 100, 1_000, 10_000];
    b'0' + (n / powers[place] % 10) as u8
}

// Puts the digits of n at a place of the buffer, and answers where they end.
pub fn append_decimal(out: &mut [u8], at: usize, n: usize) -> usize
    requires { (n < 100000) × (at + length (decimal n) ≤ length out.old) }
    ensures { Appended out.old out.new at (decimal n) result }
{
    let k = decimal_length(n);
    for i in 0..k {
        out[at + i] = digit(n, k - 1 - i);
    }
    at + k
}

// The same where there is room for five digits.
pub fn append_short(out: &mut [u8], at: usize, n: usize) -> usize
    requires { (n < 100000) × (at + 5 ≤ length out.old) }
    ensures appended { Appended out.old out.new at (decimal n) result }
    ensures upper_bound { result ≤ at + 5 }
{
    append_decimal(out, at, n)
}

// Beyond every limit: what is kept of a number that is larger.
pub const LARGE: usize = 100000;

// The number that digits stand for, LARGE where it is larger, 0 where one of the bytes is no digit.
pub fn number(digits: &[u8]) -> usize
    ensures { result ≡ min (number_of digits.now) 100000 }
{
    let mut v = 0;
    for digit in digits {
        if !digit.is_ascii_digit() {
            return 0;
        }
        v = (v * 10 + usize::from(*digit - b'0')).min(LARGE);
    }
    v
}

fn all_digits(text: &[u8]) -> bool
    ensures { result ≡ all_digits text.now }
{
    text.iter().all(u8::is_ascii_digit)
}

// Whether a text is a number: one digit, or several of which the first is not 0.
#[tactic(auto, using(std::proofs::lemmas::Bool::Decides::nat_tests), unfolding(crate::specs::Decimal::is_number))]
pub fn is_number(text: &[u8]) -> bool
    ensures { result ≡ is_number text.now }
{
    match text {
        [] => false,
        [_] => all_digits(text),
        [first, ..] => *first != b'0' && all_digits(text),
    }
}
