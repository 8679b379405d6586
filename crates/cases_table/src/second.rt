// A question with its catalogue written in the second edition.

ghost use Rattle.std.specs.Prelude.{◌<◌};

use crate::{Field, Question};
use cases_solver::{at, check_catalogue};

// A low byte, or the high byte 0 behind it; `low` tells where the byte stands, and picks no step.
fn half(b: u8, low: bool) -> u8 {
    if low { b } else { 0 }
}

// Byte i of a catalogue of n commands that is of the first edition, written in the second: R and the heads in two bytes
// each, then the records in three.
fn byte(c: &[u8], n: usize, i: usize) -> u8
    requires { (n < 128) × (i < 3000) }
{
    if i == 0 {
        return 128 + n as u8;
    }
    if i < 3 + 2 * n {
        return half(at(c, 1 + i / 2), i % 2 == 1);
    }
    let k = i - 3 - 2 * n;
    half(at(c, 2 + n + 2 * (k / 3) + k % 3), k % 3 != 2)
}

// Writes the catalogue in the second edition, from these bytes of the first, which pass.
fn rewrite(q: &mut Question, c: &[u8]) {
    let n = usize::from(at(c, 0) % 128);
    let r = usize::from(at(c, 1));
    q.resize(Field::Catalogue, 0);
    for i in 0..3 + 2 * n + 3 * r {
        q.push(Field::Catalogue, byte(c, n, i));
    }
}

// The question without its name and in the second edition, if its catalogue is of the first and passes.
pub fn in_second(q: &Question) -> Question {
    let c = q.bytes(Field::Catalogue);
    let mut again = *q;
    again.resize(Field::Name, 0);
    if at(c, 0) < 128 && check_catalogue(c).is_ok() {
        rewrite(&mut again, c);
    }
    again
}
