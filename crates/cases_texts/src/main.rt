// Texts of the beacon team's notation (docs/MANUAL.md, "Notation"), read as a table from standard input, put to the
// library: a line a row, with the plan written out or the refusal. It says so if the call on the fault of a text tells
// another one. The module row says what a row looks like; one that does not is told, and the program stops there.

#![tactic(auto)]

mod report;
mod row;

ghost use Rattle.std.specs.Prelude.{◌≤◌};

use cases_report::KEPT_BYTE;
use row::{AREA, Row};

// The longest table.
const TABLE: usize = 8192;

// The number of bytes of the catalogue without conflicts that has this first byte; from 128 on, it is that of the
// second edition.
fn size(first: u8) -> usize
    ensures { result ≤ 257 }
{
    if first < 128 {
        2 + first as usize
    } else {
        3 + 2 * (first as usize - 128)
    }
}

// Puts a row to the library.
fn put(row: &Row) {
    let mut catalogue = [0u8; 257];
    catalogue[0] = row.first;
    let c = &catalogue[..size(row.first)];
    let mut area = [KEPT_BYTE; AREA];
    let written = busplan::write_out(c, row.text, &mut area[..row.room]);
    let fault = busplan::text_fault(c, row.text);
    report::row(row);
    report::answers(written, fault, &area);
}

// Reads a row with its newline and puts it; was it one.
fn put_row(line: &[u8]) -> bool {
    match line.strip_suffix(b"\n").and_then(row::read) {
        Some(row) => {
            put(&row);
            true
        }
        None => false,
    }
}

// Every row, up to the first that is none.
fn rows(table: &[u8]) {
    let lines = || table.split_inclusive(|b| *b == b'\n');
    match lines().position(|line| !put_row(line)) {
        Some(n) => report::no_row(n + 1),
        None => report::count(lines().count()),
    }
}

fn main() {
    let mut table = [0u8; TABLE + 1];
    let n = io::read_full(0, &mut table);
    if TABLE < n {
        report::too_long();
        return;
    }
    row::put_zeros(&mut table[..n]);
    rows(&table[..n]);
}
