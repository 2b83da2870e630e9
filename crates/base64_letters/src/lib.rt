// The letters of base 64. Keys are secret, so neither direction branches on its value or looks it up in a table.
#![tactic(auto)]

ghost use Rattle.std.specs.Prelude.{◌≡◌, cond, ◌&&◌, ◌+◌, ◌-◌, ◌/◌, ◌≤◌, ◌<◌, leb, ltb};
ghost use Rattle.base64_letters.specs.Letters.{letter, value_of};

// 1 where `from` is at most x, else 0.
fn step(x: usize, from: usize) -> usize
    requires { (x < 256) × (from ≤ 256) }
    ensures { result ≡ (x + 256 - from) / 256 }
{
    (x + 256 - from) / 256
}

// A range of letters starts at the values 0, 26, 52, 62 and 63; each start adds how far the letters jump there.
pub fn letter(v: usize) -> u8
    requires { v < 64 }
    ensures { result ≡ letter v }
{
    (v + 65 + 6 * step(v, 26) - 75 * step(v, 52) - 15 * step(v, 62) + 3 * step(v, 63)) as u8
}

// How far b is below `top` where it is `from` or more and less than `to`, else 0.
fn below_top(b: usize, from: usize, to: usize, top: usize) -> usize
    requires { (b < 256) × (from ≤ to) × (to ≤ top) × (top < 256) }
    ensures { (result ≡ cond (leb from b && ltb b to) (top - b) 0) × (result < 256) }
{
    (step(b, from) - step(b, to)) * ((top + 256 - b) % 256)
}

// A byte is in one range at most; how far it is below the range's top is what its value lacks of 64. Five times 256 more, so that no
// difference goes below 0.
pub fn value(b: u8) -> usize
    ensures { result ≡ value_of b }
{
    let x = usize::from(b);
    (64 + 1280
        - below_top(x, 65, 91, 129)
        - below_top(x, 97, 123, 135)
        - below_top(x, 48, 58, 60)
        - below_top(x, 43, 44, 45)
        - below_top(x, 47, 48, 48))
        % 256
}
