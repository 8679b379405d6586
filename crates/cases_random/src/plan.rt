// Plans at random, with fillers, of which much is undone again.

ghost use Rattle.std.specs.Prelude.{◌≡◌, ◌<◌, ◌≤◌};

use crate::buffer::Buffer;
use crate::random::Random;
use cases_solver::{at, undo};

pub type Plan = Buffer<1100>;

// A letter of one of the first n commands, or a filler.
fn letter(random: &mut Random, n: usize) -> u8
    requires { (0 < n) × (n ≤ 24) }
{
    if random.draw(8) == 0 {
        return 0;
    }
    let command = 1 + random.draw(n);
    (command + 128 * random.draw(2)) as u8
}

// The byte at place i: the undo of the one as far before the turn as i is behind it, but now and then any letter, as
// where there is none.
fn byte(random: &mut Random, plan: &[u8], turn: usize, i: usize, n: usize) -> u8
    requires n_nonzero { (0 < n) × (n ≤ 24) }
    requires turn_bound { turn ≤ 1024 }
{
    if i < 2 * turn && random.draw(8) != 0 {
        return undo(at(plan, 2 * turn - 1 - i));
    }
    letter(random, n)
}

// The turn at place i: now and then it is here, or there is none.
fn turned(random: &mut Random, turn: usize, i: usize) -> usize
    requires { (turn ≤ 1024) × (i ≤ 1024) }
    ensures { result ≤ 1024 }
{
    match random.draw(32) {
        0 => i,
        1 => 0,
        _ => turn,
    }
}

// A plan of so many bytes, with letters of the first n commands.
pub fn random_plan(random: &mut Random, size: usize, n: usize) -> Plan
    requires n_nonzero { (0 < n) × (n ≤ 24) }
    requires size_bound { size ≤ 1024 }
    ensures { result.size ≡ size }
{
    let mut bytes = [0; 1100];
    let mut turn: usize = 0;
    for i in 0..size {
        turn = turned(random, turn, i);
        bytes[i] = byte(random, &bytes, turn, i, n);
    }
    Plan { bytes, size }
}
