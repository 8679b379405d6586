// What the solver answers.

use cases_report::{Answer, KEPT_NUMBER, Pairs, SlotRow, Told, widened};
use cases_solver::{
    Refusal, at, check_catalogue, check_form, check_loops, check_normal_form, check_slots,
    check_three, core, in_order, joined, leads, most_rounds, normal_form, tied,
};
use cases_table::{Call, Field, Question};

fn pairs(c: &[u8], plan: &[u8]) -> Answer {
    let mut numbers = [KEPT_NUMBER; 1100];
    let count = cases_solver::pairs(c, plan, &mut numbers);
    Answer::Pairs(Pairs::in_row(&numbers, count))
}

fn slots(c: &[u8], plan: &[u8]) -> Answer {
    let mut numbers = [KEPT_NUMBER; 1100];
    let in_use = cases_solver::slots(c, plan, &mut numbers);
    Answer::Slots(SlotRow::of(normal_form(c, plan), &numbers, in_use))
}

// Whether the letters of the normal form stay in the order of these places.
fn precedence(c: &[u8], plan: &[u8], places: &[u8]) -> Result<Answer, Refusal> {
    let list = widened(places);
    in_order(c, plan, &list[..places.len().min(1100)]).map(Answer::InOrder)
}

fn loops(c: &[u8], v: &[u8], w: &[u8]) -> Answer {
    let rounds = most_rounds(c, v, w);
    if joined(c, v, w) {
        Answer::Joined(rounds)
    } else {
        Answer::Apart(rounds)
    }
}

// The answer to a question under this catalogue, in an area of so many bytes and a second one of so many numbers.
fn solved(q: &Question, c: &[u8], room: usize, numbers: usize) -> Result<Answer, Refusal> {
    let v = q.bytes(Field::V);
    let w = q.bytes(Field::W);
    let u = q.bytes(Field::U);
    match q.call {
        Call::Conflict => {
            let number = u8::from(tied(c, at(v, 0), at(v, 1)));
            check_catalogue(c).map(|_| Answer::Conflict(number))
        }
        Call::NormalForm => {
            check_normal_form(c, v, room, numbers).map(|_| Answer::Form(normal_form(c, v)))
        }
        Call::Pairs => check_normal_form(c, v, room, numbers).map(|_| pairs(c, v)),
        Call::Slots => check_slots(c, v, room, numbers).map(|_| slots(c, v)),
        Call::Precedence => precedence(c, v, w),
        Call::Core => check_form(c, v, room).map(|_| Answer::Form(core(c, v))),
        Call::Equal => Ok(Answer::Equal(normal_form(c, v) == normal_form(c, w))),
        Call::Loops => check_loops(c, v, w, room).map(|_| loops(c, v, w)),
        Call::Fault => check_three(c, v, w, u).map(|_| Answer::NoFault),
        Call::LeadIn => Ok(Answer::LeadIn(leads(c, v, w, u))),
    }
}

// The same, as it is told. Over letter 59 of a form with slots lies whether all numbers were kept that were to be kept,
// so that such a letter is told as a number that was not.
pub fn told(q: &Question, c: &[u8], room: usize, numbers: usize) -> Told {
    let answer = solved(q, c, room, numbers);
    let kept = match &answer {
        Ok(Answer::Slots(told)) => told.form.letters[58] == 0,
        _ => true,
    };
    Told { answer, kept }
}
