// Loops: words are shortened by conjugation with single letters, then searched for among all words of the shortest
// length that such conjugations reach. There are no parts, no settling and no rings.

ghost use Rattle.std.specs.Prelude.{◌<◌, IfSome};

use crate::form::{Form, letters, normal_form, numbered};
use crate::found::Found;
use crate::word::undo;

// The normal form of: undo of a, the normal form x, a.
fn conjugate(c: &[u8], x: &Form, a: u8) -> Form {
    let mut word = [0; 64];
    word[0] = undo(a);
    word[1..63].copy_from_slice(&x.letters[..62]);
    word[63] = a;
    normal_form(c, &word)
}

// A shorter conjugate of x by one letter, if there is one.
fn shortened(c: &[u8], x: &Form) -> Option<Form>
    ensures { IfSome result (λ (y : Form). y.length < x.now.length) }
{
    let mut conjugates = (2..letters(c)).map(|n| conjugate(c, x, numbered(n)));
    conjugates.find(|y| y.length < x.length)
}

// The core of a plan, in normal form. No for: it ends where no word is shorter.
pub fn core(c: &[u8], plan: &[u8]) -> Form {
    let mut x = normal_form(c, plan);
    while let Some(y) = shortened(c, &x) {
        x = y;
    }
    x
}

// Adds the conjugates of a word by one letter that are no longer than it.
fn grow(c: &[u8], found: &mut Found<Form, 64>, x: &Form) {
    for n in 2..letters(c) {
        let y = conjugate(c, x, numbered(n));
        if y.length <= x.length {
            found.add(y);
        }
    }
}

// All words that a word leads to.
fn reached(c: &[u8], first: Form) -> Found<Form, 64> {
    let mut found = Found::new(first);
    for i in 0..64 {
        let Some(x) = found.items().get(i).copied() else {
            break;
        };
        grow(c, &mut found, &x);
    }
    found
}

// Is some conjugate of v equal to w. Loops with more than 64 words in the search are beyond it.
pub fn joined(c: &[u8], v: &[u8], w: &[u8]) -> bool {
    reached(c, core(c, v)).items().contains(&core(c, w))
}

// Does u lead from v to w: v, conjugated by each letter of u in turn, has the effect of w.
pub fn leads(c: &[u8], v: &[u8], w: &[u8], u: &[u8]) -> bool {
    let conjugated = u
        .iter()
        .fold(normal_form(c, v), |x, a| conjugate(c, &x, *a));
    conjugated == normal_form(c, w)
}
