// The normal form of a long word: the word is reduced on stacks, and the stacks are read off. Their links are as many
// as a word of its length needs, so that a short word clears little.

#![tactic(auto)]

ghost use Rattle.std.specs.Prelude.{ℕ, ◌≤◌, List};
ghost use Rattle.long_form.specs.Forming.{Formable, Formed};

use long_read::read_off;
use long_reduction::reduce;
use long_stacks::LinkedStacks;

// The normal form of a word of at most N letters. Each N is a function of its own, with one call, so that the links of
// all take one place on the stack: as locals of one function each would have its own, 45,056 bytes more.
fn form_in<const N: usize>(word: &[u8], conflicts: &[[u16; 24]; 24], area: &mut [u8]) -> usize
    requires few { N ≤ 50176 }
    requires formable { (c : List ℕ) × Formable N c conflicts.now word.now area.old }
    ensures { Formed conflicts.now word.now area.old area.new result }
{
    let mut stacks = LinkedStacks::<N>::empty();
    reduce(word, conflicts, &mut stacks);
    read_off(word, conflicts, &mut stacks, area)
}

// Writes the normal form of the word, of at most 50,176 letters, into the area and gives its length. An empty word
// clears nothing.
pub fn form(word: &[u8], conflicts: &[[u16; 24]; 24], area: &mut [u8]) -> usize
    requires { (c : List ℕ) × Formable 50176 c conflicts.now word.now area.old }
    ensures { Formed conflicts.now word.now area.old area.new result }
{
    match word.len() {
        0 => 0,
        1..=256 => form_in::<256>(word, conflicts, area),
        257..=1024 => form_in::<1024>(word, conflicts, area),
        1025..=2048 => form_in::<2048>(word, conflicts, area),
        2049..=8192 => form_in::<8192>(word, conflicts, area),
        _ => form_in::<50176>(word, conflicts, area),
    }
}
