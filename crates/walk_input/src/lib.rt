// R as standard input gives it.
#![tactic(auto)]

ghost use Rattle.std.specs.Prelude.{◌≡◌};
ghost use Rattle.walk_input.specs.Input.{rows_read};

const MAX_DIGITS: usize = 5;

// R, or 0 where the input is anything but one to five digits without a leading zero and one newline.
pub fn rows_read(input: &[u8]) -> usize
    ensures { result ≡ rows_read input.now }
{
    if input.len() < 2 {
        return 0;
    }
    let n = input.len() - 1;
    if MAX_DIGITS < n {
        return 0;
    }
    if input[0] == 48 {
        return 0;
    }
    if input[n] != 10 {
        return 0;
    }
    decimal::number(&input[..n])
}
