// The library's answers to the calls; the crate cases_report says how.

ghost use Rattle.std.specs.Prelude.{◌<◌, ◌≤◌};

use cases_report::{Answer, KEPT_NUMBER, Pairs, SlotRow, Told, kept, letters, refused, widened};
use cases_solver::{Form, Refusal, at, leads};
use cases_table::{Call, Field, Question};

// The row of a command; that of command 1 for a number that is none. No Option: no line of the table asks about one.
fn row(command: u8) -> usize
    ensures { result < 24 }
{
    match command {
        1..=24 => command as usize - 1,
        _ => 0,
    }
}

// Whether the first two commands of v conflict, by the table that reading the catalogue fills.
fn conflict(c: &[u8], v: &[u8]) -> Result<Answer, Refusal> {
    let mut rows = [[0u16; 24]; 24];
    let answer = busplan::read_catalogue(c, &mut rows);
    let number = (rows[row(at(v, 0))][row(at(v, 1))] % 256) as u8;
    answer.map(|_| Answer::Conflict(number)).map_err(refused)
}

// The form of so many letters at the start of an area, its length modulo 256.
fn told_form(area: &[u8], length: usize) -> Form {
    let mut form = letters(area, length);
    form.length = length % 256;
    form
}

// The normal form, with a second area.
fn normal(c: &[u8], v: &[u8], area: &mut [u8], second: &mut [u16]) -> Result<Answer, Refusal> {
    let form = busplan::normal_form(c, v, area, second).map_err(refused)?;
    Ok(Answer::Form(told_form(area, form.length)))
}

// Its pairs, with a second area of so many numbers.
fn pairs(c: &[u8], v: &[u8], area: &mut [u8], numbers: usize) -> Told
    requires { numbers ≤ 1100 }
{
    let mut second = [KEPT_NUMBER; 1100];
    let answer = busplan::normal_form(c, v, area, &mut second[..numbers]);
    let pairs = answer.map_or(0, |form| form.pairs);
    Told {
        answer: answer
            .map(|_| Answer::Pairs(Pairs::in_row(&second, pairs)))
            .map_err(refused),
        kept: kept(&second, pairs.saturating_mul(2), &KEPT_NUMBER),
    }
}

// Slots, with a byte over letter 59 that is 0 if all numbers were kept that were to be kept.
fn told_slots(form: Form, numbers: &[u16], in_use: usize, kept: bool) -> SlotRow {
    let mut told = SlotRow::of(form, numbers, in_use);
    told.form.letters[58] = u8::from(!kept);
    told
}

// Its slots.
fn slots(c: &[u8], v: &[u8], area: &mut [u8], numbers: usize) -> Told
    requires { numbers ≤ 1100 }
{
    let mut second = [KEPT_NUMBER; 1100];
    let answer = busplan::slots(c, v, area, &mut second[..numbers]);
    let length = answer.map_or(0, |told| told.length);
    let form = told_form(area, length);
    let kept = kept(&second, length, &KEPT_NUMBER);
    Told {
        answer: answer
            .map(|told| Answer::Slots(told_slots(form, &second, told.in_use, kept)))
            .map_err(refused),
        kept,
    }
}

// Whether its letters stay in the order of these places.
fn precedence(c: &[u8], v: &[u8], places: &[u8]) -> Result<Answer, Refusal> {
    let list = widened(places);
    let answer = busplan::precedence(c, v, &list[..places.len().min(1100)]);
    answer.map(Answer::InOrder).map_err(refused)
}

fn core(c: &[u8], v: &[u8], area: &mut [u8]) -> Result<Answer, Refusal> {
    let length = busplan::core(c, v, area).map_err(refused)?;
    Ok(Answer::Form(told_form(area, length)))
}

fn equal(c: &[u8], v: &[u8], w: &[u8]) -> Result<Answer, Refusal> {
    busplan::equal(c, v, w).map(Answer::Equal).map_err(refused)
}

// The lead-in must be one.
fn loops(c: &[u8], v: &[u8], w: &[u8], area: &mut [u8]) -> Result<Answer, Refusal> {
    let told = busplan::loops(c, v, w, area).map_err(refused)?;
    match told.lead_in {
        None => Ok(Answer::Apart(told.rounds)),
        Some(n) if leads(c, v, w, &area[..n.min(area.len())]) => Ok(Answer::Joined(told.rounds)),
        Some(_) => Ok(Answer::Astray(told.rounds)),
    }
}

fn fault(c: &[u8], v: &[u8], w: &[u8], u: &[u8]) -> Result<Answer, Refusal> {
    match busplan::fault(c, v, w, u) {
        Some(refusal) => Err(refused(refusal)),
        None => Ok(Answer::NoFault),
    }
}

fn lead_in(c: &[u8], v: &[u8], w: &[u8], u: &[u8]) -> Result<Answer, Refusal> {
    let mut area0 = [0u8; 32];
    let mut area1 = [0u8; 32];
    let answer = busplan::lead_in_check(c, v, w, u, &mut area0, &mut area1);
    answer.map(|told| Answer::LeadIn(told.yes)).map_err(refused)
}

// An answer to a call that has no second area to keep.
fn plain(answer: Result<Answer, Refusal>) -> Told {
    Told { answer, kept: true }
}

// The answer to a question, in an area and a second area of so many numbers.
pub fn asked(q: &Question, area: &mut [u8], numbers: usize) -> Told
    requires { numbers ≤ 1100 }
{
    let c = q.bytes(Field::Catalogue);
    let v = q.bytes(Field::V);
    let w = q.bytes(Field::W);
    let u = q.bytes(Field::U);
    match q.call {
        Call::Conflict => plain(conflict(c, v)),
        Call::NormalForm => {
            let mut second = [KEPT_NUMBER; 1100];
            plain(normal(c, v, area, &mut second[..numbers]))
        }
        Call::Pairs => pairs(c, v, area, numbers),
        Call::Slots => slots(c, v, area, numbers),
        Call::Precedence => plain(precedence(c, v, w)),
        Call::Core => plain(core(c, v, area)),
        Call::Equal => plain(equal(c, v, w)),
        Call::Loops => plain(loops(c, v, w, area)),
        Call::Fault => plain(fault(c, v, w, u)),
        Call::LeadIn => plain(lead_in(c, v, w, u)),
    }
}
