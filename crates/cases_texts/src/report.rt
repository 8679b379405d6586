// How a row and the library's answers to it are printed.

ghost use Rattle.std.specs.Prelude.{◌≤◌};

use crate::row::Row;
use cases_report::{Bytes, KEPT_BYTE, byte, kept, number, refusal, refused, signed, text};
use cases_solver::at;
use spec::{Reason, Refusal};

// The bytes of a text, with a backslash for the byte 0.
fn characters(bytes: &[u8]) {
    for b in bytes {
        byte(if *b == 0 { b'\\' } else { *b });
    }
}

// A text; a long one by its length and its first bytes.
fn quoted(bytes: &[u8]) {
    byte(b'"');
    if bytes.len() <= 60 {
        characters(bytes);
        byte(b'"');
        return;
    }
    characters(&bytes[..20]);
    text(b"..\" of ");
    number(bytes.len());
    text(b" bytes");
}

// The row itself.
pub fn row(row: &Row) {
    number(row.first as usize);
    byte(b' ');
    number(row.room);
    byte(b' ');
    quoted(row.text);
    byte(b':');
}

// The number of letters of a plan of at least one, its first and its last.
fn ends(area: &Bytes, n: usize)
    requires { 1 ≤ n }
{
    byte(b' ');
    number(n);
    text(b" letters, from");
    signed(at(area, 0));
    text(b" to");
    signed(at(area, n - 1));
}

// The plan that stands in an area; a long one by its length and its ends.
fn plan(area: &Bytes, n: usize) {
    if n == 0 {
        text(b" empty");
        return;
    }
    if 20 < n {
        ends(area, n);
        return;
    }
    for a in area.iter().take(n) {
        signed(*a);
    }
}

// What the call answered that writes a text out, with all bytes of the area.
fn written(answer: Result<usize, Refusal>, area: &Bytes) {
    match answer {
        Ok(n) => plan(area, n),
        Err(found) => refusal(refused(found)),
    }
    if !kept(area, answer.unwrap_or(0), &KEPT_BYTE) {
        text(b", but a byte to be kept has changed");
    }
}

// What the call answered that writes a text out, with all bytes of the area, and that its fault was told otherwise if
// it was. Where an area alone was refused, there is no fault to tell.
pub fn answers(answer: Result<usize, Refusal>, fault: Option<Refusal>, area: &Bytes) {
    written(answer, area);
    if fault
        != answer
            .err()
            .filter(|found| found.reason != Reason::AreaSize)
    {
        text(b", but another fault is told");
    }
    byte(b'\n');
}

pub fn no_row(n: usize) {
    text(b"row ");
    number(n);
    text(b" of the table is none\n");
}

pub fn too_long() {
    text(b"the table is longer than 8,192 bytes\n");
}

pub fn count(n: usize) {
    number(n);
    text(b" rows\n");
}
