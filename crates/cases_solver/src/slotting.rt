// Slots: that of a letter is the number of letters before it in the longest chain that ends with it, in which each
// letter is tied to the next. All chains are tried, so the words must be short.

ghost use Rattle.std.specs.Prelude.{◌≤◌, length};

use crate::catalogue::tied;
use crate::form::normal_form;
use crate::pairing::write;
use crate::word::at;

// The most letters of a chain in a word whose last is tied to a: with the last letter of the word, where that is tied
// to a, or without it.
fn longest(c: &[u8], word: &[u8], a: u8) -> usize
    ensures { result ≤ length word.now }
{
    let Some((b, rest)) = word.split_last() else {
        return 0;
    };
    let without = longest(c, rest, a);
    if !tied(c, a, *b) {
        return without;
    }
    without.max(1 + longest(c, rest, *b))
}

// Is number i none of those before it.
fn different(numbers: &[u16], i: usize) -> bool {
    (0..i).all(|j| at(numbers, j) != at(numbers, i))
}

// The slots of the letters of a plan's normal form, at the start of numbers, for as many as there is room. Gives how
// many different ones there are; each one that has no room counts as slot 0.
pub fn slots(c: &[u8], plan: &[u8], numbers: &mut [u16]) -> usize {
    let form = normal_form(c, plan);
    let mut count: usize = 0;
    for i in 0..form.length {
        write(numbers, i, longest(c, &form.letters[..i], form.letters[i]));
        if different(numbers, i) {
            count += 1;
        }
    }
    count
}
