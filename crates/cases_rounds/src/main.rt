// Loops calls, read one after the other from standard input and put to the library: a line a call, `joined`, the length
// of the lead-in and the rounds, or `apart` and the rounds, or `refused`, number, plan and place. A call is three sizes
// of two bytes each, low byte first, then the bytes of a catalogue and of two plans. Reading ends where a call is cut
// short, or where a size is larger than its buffer. tests/rounds.sh compares the lines with those of a second solver.

#![tactic(auto)]

ghost use Rattle.std.specs.Prelude.{◌≤◌};

use spec::{Loops, Refusal};

// Room for the largest catalogue of the first edition, for some that are too large, and for some of the second edition.
const CATALOGUE: usize = 1024;

// Room for the longest plan, and for some that are too long.
const PLAN: usize = 1100;

// Room for every lead-in: 24 × 2,048 bytes.
const LEAD_IN: usize = 49152;

// Not cases_report's: this program takes the library alone, with no solver below it.
fn text(bytes: &[u8]) {
    io::write_all(1, bytes);
}

// A number behind a space.
fn number(n: usize) {
    text(b" ");
    io::print_decimal(1, n as u64);
}

fn refused(refusal: Refusal) {
    text(b"refused");
    number(refusal.reason as usize);
    number(refusal.plan as usize);
    number(refusal.place);
}

fn told(loops: Loops) {
    match loops.lead_in {
        Some(length) => {
            text(b"joined");
            number(length);
        }
        None => text(b"apart"),
    }
    number(loops.rounds);
}

// Puts a call to the library, and prints the line of its answer.
fn put(catalogue: &[u8], v: &[u8], w: &[u8]) {
    let mut area = [0u8; LEAD_IN];
    match busplan::loops(catalogue, v, w, &mut area) {
        Ok(loops) => told(loops),
        Err(refusal) => refused(refusal),
    }
    text(b"\n");
}

// Reads as many bytes as there is room for; were there so many.
fn filled(bytes: &mut [u8]) -> bool {
    io::read_full(0, bytes) == bytes.len()
}

// Reads the bytes of a call, of these sizes, and puts it; were there so many.
fn read(c: usize, n: usize, m: usize) -> bool
    requires { (c ≤ CATALOGUE) × (n ≤ PLAN) × (m ≤ PLAN) }
{
    let mut c_area = [0u8; CATALOGUE];
    let mut v_area = [0u8; PLAN];
    let mut w_area = [0u8; PLAN];
    let catalogue = &mut c_area[..c];
    let v = &mut v_area[..n];
    let w = &mut w_area[..m];
    if filled(catalogue) && filled(v) && filled(w) {
        put(catalogue, v, w);
        return true;
    }
    false
}

fn size(low: u8, high: u8) -> usize {
    u16::from_le_bytes([low, high]) as usize
}

// Reads a call and puts it; was there one.
fn next() -> bool {
    let mut head = [0u8; 6];
    if !filled(&mut head) {
        return false;
    }
    let [c0, c1, n0, n1, m0, m1] = head;
    let (c, n, m) = (size(c0, c1), size(n0, n1), size(m0, m1));
    c <= CATALOGUE && n <= PLAN && m <= PLAN && read(c, n, m)
}

// Every call, of a thousand million at most.
fn main() {
    for _call in 0..1000000000 {
        if !next() {
            break;
        }
    }
}
