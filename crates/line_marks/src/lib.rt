// The marks of a login line, and the texts between them.
#![tactic(auto)]

ghost use Rattle.std.specs.Prelude.{◌≡◌, ◌≤◌, length};
ghost use Rattle.line_form.specs.Line.{until};
ghost use Rattle.line_marks.specs.Cuts.{CutAt, TextsOf};

// The place of the first such byte, the end where there is none.
fn place_of(part: &[u8], byte: u8) -> usize
    ensures value { result ≡ length (until byte part.now) }
    ensures upper_bound { result ≤ length part.now }
{
    let place = part.iter().position(|here| *here == byte);
    place.unwrap_or(part.len())
}

// The text before the first such byte and what stands behind the mark there, if the mark stands.
fn cut<'a>(part: &'a [u8], byte: u8, mark: &[u8]) -> Option<(&'a [u8], &'a [u8])>
    ensures { CutAt part.now byte mark.now result }
{
    let (text, rest) = part.split_at(place_of(part, byte));
    Some((text, rest.strip_prefix(mark)?))
}

#[derive(Clone, Copy)]
pub struct Texts<'a> {
    pub time: &'a [u8],
    pub rows: &'a [u8],
    pub columns: &'a [u8],
    pub salt: &'a [u8],
    pub key: &'a [u8],
}

// The texts of a line, if all marks stand.
pub fn split_line<'a>(line: &'a [u8]) -> Option<Texts<'a>>
    ensures { TextsOf line.now result }
{
    let rest = line.strip_prefix(b"$lyra2$t=")?;
    let (time, rest) = cut(rest, b',', b",r=")?;
    let (rows, rest) = cut(rest, b',', b",c=")?;
    let (columns, rest) = cut(rest, b'$', b"$")?;
    let (salt, key) = cut(rest, b'$', b"$")?;
    Some(Texts {
        time,
        rows,
        columns,
        salt,
        key,
    })
}
