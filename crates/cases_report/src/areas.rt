// Areas to lend, of bytes and of numbers, filled with what is no letter, no place and no slot.

ghost use Rattle.std.specs.Prelude.{◌≡◌, length};

pub type Bytes = [u8; 1100];

pub type Numbers = [u16; 1100];

pub const KEPT_BYTE: u8 = 77;

pub const KEPT_NUMBER: u16 = 7777;

// Has an area kept what it was filled with, but for the first n.
pub fn kept<T: PartialEq>(area: &[T], n: usize, filler: &T) -> bool {
    area.iter().skip(n).all(|x| *x == *filler)
}

// Bytes as the first numbers of an array, with zeros behind them.
pub fn widened(bytes: &[u8]) -> Numbers
    ensures { 1100 ≡ length result }
{
    let mut numbers = [0; 1100];
    for (number, b) in numbers.iter_mut().zip(bytes) {
        *number = u16::from(*b);
    }
    numbers
}
