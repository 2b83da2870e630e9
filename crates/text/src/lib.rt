// Text in a lent buffer. What appends answers where its text ends.
#![tactic(auto)]

ghost use Rattle.std.specs.Prelude.{◌≡◌, ◌+◌, ◌≤◌, length};
ghost use Rattle.text.specs.Text.{Appended, stands_at};

pub fn append(out: &mut [u8], at: usize, text: &[u8]) -> usize
    requires { at + length text.now ≤ length out.old }
    ensures { Appended out.old out.new at text.now result }
{
    for (i, byte) in text.iter().enumerate() {
        out[at + i] = *byte;
    }
    at + text.len()
}

// Whether a text stands at a place.
pub fn stands_at(buffer: &[u8], at: usize, text: &[u8]) -> bool
    requires { at ≤ length buffer.now }
    ensures { result ≡ stands_at buffer.now at text.now }
{
    buffer[at..].starts_with(text)
}
