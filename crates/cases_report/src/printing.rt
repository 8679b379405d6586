// Printing: answers, each behind a space and letters as the manual writes them, and counts. The kit's io takes no
// handle, which Display and println would have to be given.

use crate::answer::{Answer, Pairs, SlotRow, Told};
use cases_solver::{Form, Refusal, at};

pub fn text(bytes: &[u8]) {
    io::write_all(1, bytes);
}

pub fn byte(b: u8) {
    text(&[b]);
}

pub fn number(n: usize) {
    io::print_decimal(1, n as u64);
}

// A letter, or a number below 128.
pub fn signed(b: u8) {
    byte(b' ');
    if 127 < b {
        byte(b'-');
    }
    number((b % 128) as usize);
}

// The letters of a normal form; those for which it has no room are told as 0.
fn form(form: &Form) {
    if form.length == 0 {
        text(b" empty");
    }
    for i in 0..form.length {
        signed(at(&form.letters, i));
    }
}

// Pairs, as 1-4 each.
fn pairs(pairs: &Pairs) {
    if pairs.count == 0 {
        text(b" none");
    }
    let (places, _) = pairs.places.as_chunks::<2>();
    for [earlier, later] in places.iter().take(pairs.count) {
        byte(b' ');
        number(*earlier as usize);
        byte(b'-');
        number(*later as usize);
    }
}

// How many slots are in use.
fn in_use(n: usize) {
    text(b", ");
    if n == 0 {
        text(b"no slot");
    } else {
        number(n);
    }
    text(b" in use");
}

// A normal form and its slots.
fn slots(slots: &SlotRow) {
    form(&slots.form);
    if slots.form.length != 0 {
        text(b", slots");
    }
    for slot in slots.slots.iter().take(slots.form.length) {
        byte(b' ');
        number(*slot as usize);
    }
    in_use(usize::from(slots.in_use));
}

pub fn refusal(refusal: Refusal) {
    text(b" refused");
    signed(refusal.number);
    signed(refusal.plan);
    byte(b' ');
    number(refusal.place);
}

// What is told of an answer that holds or not, in the caller's words for either; no step depends on it.
fn verdict(holds: bool, yes: &[u8], no: &[u8]) {
    text(if holds { yes } else { no });
}

const ASTRAY: &[u8] = b" joined, but the lead-in is none";

// Whether two commands conflict; any other number is told in the words for what should not be.
fn conflict(number: u8) {
    match number {
        0 => text(b" not in conflict"),
        1 => text(b" in conflict"),
        _ => text(ASTRAY),
    }
}

// A verdict on two loops, and the rounds that settling takes.
fn loops(verdict: &[u8], rounds: usize) {
    text(verdict);
    text(b", ");
    number(rounds);
    text(b" round");
    if rounds != 1 {
        byte(b's');
    }
}

fn answer(answer: &Answer) {
    match answer {
        Answer::Conflict(number) => conflict(*number),
        Answer::Form(told) => form(told),
        Answer::Pairs(told) => pairs(told),
        Answer::Slots(told) => slots(told),
        Answer::InOrder(yes) => verdict(*yes, b" yes", b" no"),
        Answer::Equal(yes) => verdict(*yes, b" equal", b" not equal"),
        Answer::Joined(rounds) => loops(b" joined", *rounds),
        Answer::Apart(rounds) => loops(b" apart", *rounds),
        Answer::Astray(rounds) => loops(ASTRAY, *rounds),
        Answer::NoFault => text(b" no fault"),
        Answer::LeadIn(yes) => verdict(*yes, b" a lead-in", b" no lead-in"),
    }
}

fn told(told: &Told) {
    match &told.answer {
        Ok(given) => answer(given),
        Err(refused) => refusal(*refused),
    }
    if !told.kept {
        text(b", but a number to be kept has changed");
    }
}

// Two answers to a call, side by side behind the name of the case, if it has one; are they the same.
pub fn answers(name: &[u8], ours: &Told, theirs: &Told) -> bool {
    if !name.is_empty() {
        text(name);
        byte(b':');
        told(ours);
        text(b" |");
        told(theirs);
        byte(b'\n');
    }
    ours == theirs
}

// How many of so many agree.
pub fn count(agree: usize, of: usize, what: &[u8]) {
    number(agree);
    text(b" of ");
    number(of);
    text(what);
}

// How many of so many cases agree, of which each is put by its number.
pub fn every<F: FnMut(usize) -> bool>(of: usize, mut put: F, what: &[u8])
    requires { F.IsAlwaysCallable put }
{
    let mut agree: usize = 0;
    for i in 0..of {
        if put(i) {
            agree += 1;
        }
    }
    count(agree, of, what);
}
