// The manual's cases, its edges and its slips (docs/MANUAL.md, "Cases"), read as a table from standard input, then
// every small plan under K, put to the library and to a solver written independently of it. A line a case: what the
// library says, then what the solver says. A case agrees only if the library says the same of its catalogue written in
// the second edition. The crate cases_table says what a line of the table looks like.

#![tactic(auto)]

mod ask;
mod solve;

use cases_report::{answers, count, every};
use cases_solver::at;
use cases_table::{Call, Field, Question, end, in_second, plan_of_four, plans_of_two, read};

const PLANS: &[u8] = b" plans of 4 bytes agree, in form, pairs and core\n";

const LOOPS: &[u8] = b" pairs of plans of 2 bytes agree, also in rounds\n";

// Puts a question to the library, and under this catalogue to the solver. Prints both answers if it has a name; do they
// agree.
fn compare(q: &Question, catalogue: &[u8]) -> bool {
    let mut area = [0u8; 1100];
    let n = q.size(Field::Area).min(1100);
    let numbers = q.size(Field::SecondArea).min(1100);
    let theirs = solve::told(q, catalogue, n, numbers);
    let ours = ask::asked(q, &mut area[..n], numbers);
    answers(q.bytes(Field::Name), &ours, &theirs)
}

// The same under its own catalogue.
fn put(q: &Question) -> bool {
    compare(q, q.bytes(Field::Catalogue))
}

// The same, and once more where the library is given the catalogue in the second edition.
fn put_twice(q: &Question) -> bool {
    put(q) && compare(&in_second(q), q.bytes(Field::Catalogue))
}

// Every line of the table. The table ends where a line would begin with a 0, or behind 16,384 bytes. No for: a line
// begins where the one before it ends.
fn table(text: &[u8]) {
    let mut agree: usize = 0;
    let mut cases: usize = 0;
    let mut start: usize = 0;
    while start < 16384 && at(text, start) != 0 {
        if put_twice(&read(text, start)) {
            agree += 1;
        }
        cases += 1;
        start = end(text, start) + 1;
    }
    count(agree, cases, b" cases agree\n");
}

// Do they agree on plan number p of four bytes, in normal form, pairs and core.
fn plan_agrees(p: usize) -> bool {
    let calls = [Call::NormalForm, Call::Pairs, Call::Core];
    calls.iter().all(|call| put(&plan_of_four(*call, p)))
}

// Do they agree on the loops of two plans of two bytes each, number p.
fn loops_agree(p: usize) -> bool {
    put(&plans_of_two(Call::Loops, p))
}

fn main() {
    let mut text = [0u8; 16384];
    let n = io::read_full(0, &mut text);
    table(&text[..n]);
    every(6561, plan_agrees, PLANS);
    every(6561, loops_agree, LOOPS);
}
