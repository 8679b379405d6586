// Whether a chain of conflicting letters leads from one letter of a word to another: one scan from the first to the
// second, with the set of the commands that a chain has reached.

#![tactic(auto)]

ghost use Rattle.std.specs.Prelude.{ℕ, ◌<◌, ◌≡◌, List, length};
ghost use Rattle.spec.specs.Precedence as Precedence;
ghost use Rattle.schedule_chains.specs.Following.{Followable, Follow, Followed};

use array_sets::{add, independent, none};

// A letter behind the first: where it conflicts with a command that was reached, its own is reached too.
fn follow(letter: u8, conflicts: &[[u16; 24]; 24], reached: &mut [u16; 24])
    requires { Follow letter conflicts.now reached.old }
    ensures { Followed letter conflicts.now reached.old reached.new }
{
    let k = (letter % 128) as usize - 1;
    if independent(k, conflicts, reached) {
        return;
    }
    add(k, conflicts, reached);
}

// Whether a chain leads from the letter at place i to the letter at place j, and so the first stays before the second.
pub fn leads(word: &[u8], conflicts: &[[u16; 24]; 24], i: usize, j: usize) -> bool
    requires { ((c : List ℕ) × Followable c word.now conflicts.now) × (i < length word.now)
        × (j < length word.now) }
    ensures { (c : List ℕ) → Followable c word.now conflicts.now
        → result ≡ Precedence.leads c word.now i j }
{
    if j <= i {
        return false;
    }
    let mut reached = none();
    add((word[i] % 128) as usize - 1, conflicts, &mut reached);
    for m in i + 1..j {
        follow(word[m], conflicts, &mut reached);
    }
    !independent((word[j] % 128) as usize - 1, conflicts, &reached)
}
