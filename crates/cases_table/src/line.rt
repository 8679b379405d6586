// Reading a line of the table: a name, ":", a call and the plans, or a plan and places, with ";" between them. "@"
// brings the bytes of the area, and after ";" the numbers of the second one, for pairs or slots; "#" brings another
// catalogue than K. −3 is byte or place 131, and "0 x5" is five zeros. "~9" is the first eight records of the second
// edition, of command 2, each of which leads to the next one.

ghost use Rattle.std.specs.Prelude.{◌<◌, ◌≤◌};

use crate::{Call, Field, Question};
use cases_solver::at;

// The part that a character opens, or else the part that is open; ";" goes round all of them.
fn opened(open: Field, mark: u8) -> Field {
    match mark {
        b':' => Field::V,
        b';' => next(open),
        b'@' => Field::Area,
        b'#' => Field::Catalogue,
        _ => open,
    }
}

fn next(open: Field) -> Field {
    match open {
        Field::W => Field::U,
        Field::U => Field::Area,
        Field::Area => Field::SecondArea,
        Field::SecondArea => Field::Name,
        Field::Name => Field::Catalogue,
        Field::Catalogue => Field::V,
        Field::V => Field::W,
    }
}

// The call that a word names; "o" is precedence too.
fn call(word: &[u8]) -> Call {
    match word {
        [b'r', ..] => Call::Conflict,
        [b'n', ..] => Call::NormalForm,
        [b'p', b'r', ..] => Call::Precedence,
        [b'o', ..] => Call::Precedence,
        [b'p', ..] => Call::Pairs,
        [b's', ..] => Call::Slots,
        [b'c', ..] => Call::Core,
        [b'e', ..] => Call::Equal,
        [b'l', ..] => Call::Loops,
        [b'f', ..] => Call::Fault,
        _ => Call::LeadIn,
    }
}

// The number at the start of a text, modulo 10,000.
fn number(text: &[u8]) -> usize
    ensures { result < 10000 }
{
    let mut value: usize = 0;
    for b in text {
        if !b.is_ascii_digit() {
            break;
        }
        value = (10 * value + (*b % 16) as usize) % 10000;
    }
    value
}

// The byte of a number of at most 127 behind a mark.
fn byte(mark: u8, value: usize) -> u8 {
    let low = (value % 128) as u8;
    if mark == b'-' { 128 + low } else { low }
}

// The records before number n of the second edition, of command 2, each of which leads to the next one.
fn push_chain(q: &mut Question, part: Field, n: usize)
    requires { n < 10000 }
{
    for next in 2..n + 1 {
        q.push(part, 2);
        q.push(part, (next % 256) as u8);
        q.push(part, (next / 256 % 256) as u8);
    }
}

// Takes a number behind a mark into a part: one byte more, or after "x" so many in all, or after "~" a chain.
fn take(q: &mut Question, part: Field, mark: u8, value: usize)
    requires { value < 10000 }
{
    match mark {
        b'x' => q.resize(part, value),
        b'~' => push_chain(q, part, value),
        _ => q.push(part, byte(mark, value)),
    }
}

// A letter of the name, or a number that begins behind a mark.
fn keep(q: &mut Question, open: Field, mark: u8, behind: &[u8]) {
    if open == Field::Name {
        q.push(open, mark);
    } else if !mark.is_ascii_digit() {
        if let [b'0'..=b'9', ..] = behind {
            take(q, open, mark, number(behind));
        }
    }
}

// Opens a part, which begins with no byte; behind a mark and one more byte stands the call, in front of v.
fn begin(q: &mut Question, open: Field, behind: &[u8]) {
    let word = behind.get(1..).unwrap_or(b"");
    q.resize(open, 0);
    match open {
        Field::V => q.call = call(word),
        Field::Catalogue => q.own_catalogue = at(word, 0) != 0,
        _ => {}
    }
}

// Reads the line at a place of a text, of which 16,383 bytes are read; behind its end stand zeros.
fn read_line(text: &[u8], start: usize) -> Question {
    let mut q = Question::blank(Call::LeadIn);
    let mut open = Field::Name;
    for i in start..16383 {
        let mark = at(text, i);
        if mark == b'\n' {
            break;
        }
        let behind = text.get(i + 1..).unwrap_or(b"");
        let next = opened(open, mark);
        if next == open {
            keep(&mut q, open, mark, behind);
        } else {
            begin(&mut q, next, behind);
        }
        open = next;
    }
    q
}

// The question on the line at a place of a text, under K unless the line brings another catalogue.
pub fn read(text: &[u8], start: usize) -> Question {
    let mut q = read_line(text, start);
    if !q.own_catalogue {
        q.bring_k();
    }
    q
}

// The end of the line at a place of a text.
pub fn end(text: &[u8], start: usize) -> usize
    requires { start ≤ 16383 }
    ensures { (start ≤ result) × (result ≤ 16383) }
{
    for i in start..16383 {
        if at(text, i) == b'\n' {
            return i;
        }
    }
    16383
}
