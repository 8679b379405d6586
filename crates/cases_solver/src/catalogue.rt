// The catalogue, read byte by byte: its heads, its chains and the letters that are tied. A first byte of 128 or more is
// that of the second edition, in which R, a head and a next index have two bytes, low byte first.

ghost use Rattle.std.specs.Prelude.{◌<◌};

use crate::word::at;

pub fn is_second(c: &[u8]) -> bool {
    127 < at(c, 0)
}

// N.
pub fn commands(c: &[u8]) -> usize
    ensures { result < 128 }
{
    (at(c, 0) % 128) as usize
}

// The number at place k: R, a head or a next index.
pub fn index(c: &[u8], k: usize) -> usize
    ensures { result < 65536 }
{
    let low = at(c, k) as usize;
    if !is_second(c) || c.len() <= k {
        return low;
    }
    low + 256 * at(c, k + 1) as usize
}

// R.
pub fn records(c: &[u8]) -> usize
    ensures { result < 65536 }
{
    index(c, 1)
}

// The place of the head of a command.
fn head(c: &[u8], command: u8) -> usize {
    if is_second(c) {
        1 + 2 * command as usize
    } else {
        1 + command as usize
    }
}

// The place of a record.
fn record(c: &[u8], index: usize) -> usize
    requires { index < 65536 }
    ensures { result < 200000 }
{
    if is_second(c) {
        2 * commands(c) + 3 * index
    } else {
        commands(c) + 2 * index
    }
}

// Follows the chain of a head, for 1,025 records at most. Is one of them of the command whose head is the goal, or is
// the chain longer. No head stands at place 0, so that 0 in place of no goal is never met: looked at as an Option, the
// goal costs the loop a third more time.
pub fn walk(c: &[u8], start: usize, goal: Option<usize>) -> bool {
    let goal = goal.unwrap_or(0);
    let mut j = index(c, start);
    for _turn in 0..1025 {
        if j == 0 || head(c, at(c, record(c, j))) == goal {
            break;
        }
        j = index(c, record(c, j) + 1);
    }
    j != 0
}

// Must two letters keep their order.
pub fn tied(c: &[u8], a: u8, b: u8) -> bool {
    let (a, b) = (a % 128, b % 128);
    let j = head(c, a);
    let k = head(c, b);
    a != 0 && b != 0 && (a == b || walk(c, j, Some(k)) || walk(c, k, Some(j)))
}
