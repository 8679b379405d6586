// Arrangements: all orders of the letters of a normal form, of at most 6, that swaps of independent neighbours lead to.
// The letters have numbers from 0, in the order of the normal form, and keep them: equal letters are told apart.

ghost use Rattle.std.specs.Prelude.{◌<◌};

use crate::catalogue::tied;
use crate::form::normal_form;
use crate::found::Found;
use crate::refusals::{Refusal, check_precedence};
use crate::word::{Word, at};

// The place of each letter.
type Arrangement = [u8; 6];

pub type Arrangements = Found<[u8; 6], 720>;

// Are there letters number a and b, and are they independent.
fn independent(c: &[u8], word: &Word, a: usize, b: usize) -> bool {
    let x = at(word, a);
    let y = at(word, b);
    x != 0 && y != 0 && !tied(c, x, y)
}

// Adds an arrangement with letters a and b swapped, if they are independent neighbours there.
fn swap(c: &[u8], word: &Word, found: &mut Arrangements, x: Arrangement, a: usize, b: usize)
    requires { (a < 6) × (b < 6) }
{
    if usize::from(x[a]) + 1 == usize::from(x[b]) && independent(c, word, a, b) {
        let mut y = x;
        y.swap(a, b);
        found.add(y);
    }
}

// Adds all that one swap leads to.
fn grow(c: &[u8], word: &Word, found: &mut Arrangements, x: Arrangement) {
    for t in 0..36 {
        swap(c, word, found, x, t / 6, t % 6);
    }
}

// All that swaps lead to from the normal form of a plan.
pub fn arrangements(c: &[u8], plan: &[u8]) -> Arrangements {
    let form = normal_form(c, plan);
    let mut found = Found::new([0, 1, 2, 3, 4, 5]);
    for i in 0..720 {
        let Some(x) = found.items().get(i).copied() else {
            break;
        };
        grow(c, &form.letters, &mut found, x);
    }
    found
}

// Does letter i stand before letter j in all of them.
fn stays_before(found: &Arrangements, i: u16, j: u16) -> bool {
    let mut all = found.items().iter();
    all.all(|x| at(x, usize::from(i)) < at(x, usize::from(j)))
}

// The same for all pairs of a list, each of the numbers of two letters.
pub fn all_stay_before(found: &Arrangements, places: &[u16]) -> bool {
    let (pairs, _) = places.as_chunks::<2>();
    pairs.iter().all(|[i, j]| stays_before(found, *i, *j))
}

// The answer to a precedence check, if the normal form has at most 6 letters.
pub fn in_order(c: &[u8], plan: &[u8], places: &[u16]) -> Result<bool, Refusal> {
    check_precedence(c, plan, places)?;
    Ok(all_stay_before(&arrangements(c, plan), places))
}
