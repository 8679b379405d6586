// Pairs: which letters cancel with each other where a plan is read from left to right. A letter looks back over the
// letters left, the newest first, for one that it is tied to. If that is its undo, the two places are a pair.

ghost use Rattle.std.specs.Prelude.{◌+◌, ◌<◌, ◌≤◌, IfSome, length};

use crate::catalogue::tied;
use crate::word::undo;

// Writes a place or a slot as number k, if there is room for it.
pub fn write(numbers: &mut [u16], k: usize, number: usize)
    requires { number < 1024 }
{
    if k < numbers.len() {
        numbers[k] = number as u16;
    }
}

// The place of the newest letter left that is tied to a, if there is one.
fn newest_tied(c: &[u8], left: &[u8], a: u8) -> Option<usize>
    ensures { IfSome result (λ j. j < length left.now) }
{
    left.iter().rposition(|b| tied(c, a, *b))
}

// Reads the byte a at place i: a letter cancels, and its pair is written behind n others, or it is left; -0, which no
// letter is, cancels with its own place. Gives the number of pairs.
fn read(c: &[u8], left: &mut [u8; 1024], a: u8, i: usize, numbers: &mut [u16], n: usize) -> usize
    requires i_bound { i < 1024 }
    requires n_le_i { n ≤ i }
    ensures { result ≤ i + 1 }
{
    if a == 0 {
        return n;
    }
    let j = newest_tied(c, &left[..i], a).unwrap_or(i);
    if left[j] == undo(a) {
        left[j] = 0;
        write(numbers, 2 * n, j);
        write(numbers, 2 * n + 1, i);
        n + 1
    } else {
        left[i] = a;
        n
    }
}

// The pairs of a plan of at most 1,024 bytes, at the start of numbers: for each, in the order found, the place of the
// earlier letter and that of the later. Gives their number.
pub fn pairs(c: &[u8], plan: &[u8], numbers: &mut [u16]) -> usize {
    let mut left = [0u8; 1024];
    let mut n: usize = 0;
    for i in 0..plan.len().min(1024) {
        n = read(c, &mut left, plan[i], i, numbers, n);
    }
    n
}
