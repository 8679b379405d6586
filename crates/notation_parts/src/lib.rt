// What stands at a place of a text: whether a sequence goes on there, a blank, a bracket, a minus, a number.
// The crate notation_laws defines each over the tokens left (specs/Here.antt).
// A text stays whole and a place moves: from `&text[at..]` an answer would still have to say how much of it was read.

#![tactic(auto)]

ghost use Rattle.std.specs.Prelude.{◌+◌, ◌≤◌, ◌≡◌, length, drop};
ghost use Rattle.spec.specs.Answers.{yes_no};
ghost use Rattle.spec.specs.Notation.{tokens};
ghost use Rattle.notation_laws.specs.Here.{goes_on, Mark, marked, is_minus};
ghost use Rattle.notation_laws.specs.Here.{digits_from, number_of, Small, SmallNumber};
ghost use Rattle.notation_parts.specs.Numbers.{NumberRead};

use notation_tokens::{Token, token_of};

// A number, and the place behind its digits.
#[derive(Clone, Copy)]
pub struct Number {
    pub value: usize,
    pub end: usize,
}

pub fn goes_on(text: &[u8], at: usize) -> bool
    ensures { result ≡ goes_on (drop at (tokens text.now)) }
{
    at < text.len() && text[at] != b')'
}

// Whether this byte stands here: a blank, a bracket or a minus.
pub fn stands(text: &[u8], at: usize, b: u8) -> bool
    requires { Mark b }
    ensures { result ≡ marked (drop at (tokens text.now)) b }
{
    at < text.len() && text[at] == b
}

// The place behind a minus, if one stands here.
pub fn past_minus(text: &[u8], at: usize) -> usize
    ensures { result ≡ at + yes_no (is_minus (drop at (tokens text.now))) }
{
    if stands(text, at, b'-') { at + 1 } else { at }
}

// The digits from here on, of a number with this value so far.
fn digits(text: &[u8], at: usize, mut value: usize) -> Number
    requires small { Small value (drop at (tokens text.now)) }
    requires within { at ≤ length text.now }
    ensures { NumberRead text.now (digits_from value (drop at (tokens text.now))) at result }
{
    for i in at..text.len() {
        let Token::Digit(d) = token_of(text[i]) else {
            return Number { value, end: i };
        };
        value = 10 * value + d;
    }
    Number {
        value,
        end: text.len(),
    }
}

// The number that stands here, or 1 where no digit does.
pub fn number_at(text: &[u8], at: usize) -> Number
    requires { SmallNumber (drop at (tokens text.now)) }
    ensures { NumberRead text.now (number_of (drop at (tokens text.now))) at result }
{
    if text.len() <= at {
        return Number { value: 1, end: at };
    }
    let Token::Digit(d) = token_of(text[at]) else {
        return Number { value: 1, end: at };
    };
    digits(text, at + 1, d)
}
