// Normal forms: pairs of a letter and its undo are taken off, then the smallest letter that can come first is read off,
// again and again.

ghost use Rattle.std.specs.Prelude.{◌<◌, ◌≤◌, IfSome};

use crate::catalogue::{commands, tied};
use crate::word::{Word, undo};

// A normal form of at most 62 letters, which stand at the start of the word.
#[derive(Clone, Copy, PartialEq, Eq)]
pub struct Form {
    pub length: usize,
    pub letters: Word,
}

// The first place whose letter is tied to a, if there is one.
fn first_tied(c: &[u8], word: &Word, a: u8) -> Option<usize>
    ensures { IfSome result (λ i. i < 64) }
{
    word.iter().position(|b| tied(c, a, *b))
}

// Puts the letter a before a word, at place k; a goes off with its undo, if that can come first.
fn lead(c: &[u8], word: &mut Word, a: u8, k: usize)
    requires { k < 64 }
{
    match first_tied(c, word, a) {
        Some(i) if word[i] == undo(a) => word[i] = 0,
        _ => word[k] = a,
    }
}

// The letters of a plan, less the pairs that go off, read from the last to the first.
fn reduced(c: &[u8], plan: &[u8]) -> Word {
    let mut word = [0; 64];
    let mut letters = plan.iter().rev().filter(|a| **a != 0);
    for k in (0..64).rev() {
        let Some(a) = letters.next() else {
            break;
        };
        lead(c, &mut word, *a, k);
    }
    word
}

// The letters have the numbers from 2 on, two for each command; gives the first number that is too large.
pub fn letters(c: &[u8]) -> usize
    ensures { (2 ≤ result) × (result ≤ 64) }
{
    2 + 2 * (commands(c) % 32)
}

// The letter with number n: 1, −1, 2, −2 and so on.
pub fn numbered(n: usize) -> u8 {
    (n / 2 % 128 + n % 2 * 128) as u8
}

// The place of the smallest letter that can come first, if there is one.
fn first(c: &[u8], word: &Word) -> Option<usize>
    ensures { IfSome result (λ i. i < 64) }
{
    for n in 2..letters(c) {
        let a = numbered(n);
        if let Some(i) = first_tied(c, word, a)
            && word[i] == a
        {
            return Some(i);
        }
    }
    None
}

pub fn normal_form(c: &[u8], plan: &[u8]) -> Form
    ensures { result.length ≤ 62 }
{
    let mut rest = reduced(c, plan);
    let mut form = Form {
        length: 0,
        letters: [0; 64],
    };
    for k in 0..62 {
        let Some(i) = first(c, &rest) else {
            break;
        };
        form.letters[k] = rest[i];
        form.length = k + 1;
        rest[i] = 0;
    }
    form
}
