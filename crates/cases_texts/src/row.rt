// A row of the table: the first byte of the catalogue, which tells its edition and N, a blank, the size of the area in
// bytes, a blank, and the text, which is everything up to the newline that ends the row. In a text a backslash stands
// for the byte 0, which would make the table no file of text.

ghost use Rattle.std.specs.Prelude.{◌≤◌, ◌≡◌, length};

// The bytes lent at most.
pub const AREA: usize = 1100;

// What was read: the two numbers and the text.
#[derive(Clone, Copy)]
pub struct Row<'a> {
    pub first: u8,
    pub room: usize,
    pub text: &'a [u8],
    ghost fits: { room ≤ 1100 },
}

// Puts the byte 0 where a backslash stands for it.
pub fn put_zeros(table: &mut [u8])
    ensures { length table.new ≡ length table.old }
{
    for b in table.iter_mut() {
        if *b == b'\\' {
            *b = 0;
        }
    }
}

// The value of some digits; past 9,999 it does not grow.
fn value(digits: &[u8]) -> usize {
    let mut value: usize = 0;
    for b in digits {
        value = (10 * value + (*b % 16) as usize).min(9999);
    }
    value
}

// The number that begins a text, where a blank stands behind it, and what stands behind that.
fn number(text: &[u8]) -> Option<(usize, &[u8])> {
    let n = text.iter().position(|b| !b.is_ascii_digit())?;
    match &text[n..] {
        [b' ', rest @ ..] if n != 0 => Some((value(&text[..n]), rest)),
        _ => None,
    }
}

// The row of a line, if it is one and its numbers are not too large.
pub fn read(line: &[u8]) -> Option<Row<'_>> {
    let (first, rest) = number(line)?;
    let (room, text) = number(rest)?;
    let first = u8::try_from(first).ok()?;
    if AREA < room {
        return None;
    }
    Some(Row { first, room, text })
}
