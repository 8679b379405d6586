// The reduction of a long word, in time linear in its length: its letters are put on stacks from its right end, each
// cutting its undo off if that is on top.

#![tactic(auto)]

ghost use Rattle.std.specs.Prelude.{ℕ, ◌+◌, List, length};
ghost use Rattle.long_reduction.specs.Reducing.{Reducing};

use input_plan::undo;
use long_stacks::LinkedStacks;

// One letter more, at place p: it is cut off with its undo, or put on the stacks.
fn step<const N: usize>(
    word: &[u8],
    conflicts: &[[u16; 24]; 24],
    stacks: &mut LinkedStacks<N>,
    p: usize,
)
    requires { (c : List ℕ) × Reducing c conflicts.now word.now stacks.old (p + 1) }
    ensures { (c : List ℕ)
        → Reducing c conflicts.now word.now stacks.old (p + 1)
        → Reducing c conflicts.now word.now stacks.new p }
{
    let a = word[p];
    if a == 0 {
        return;
    }
    let k = (a % 128) as usize - 1;
    if stacks.marks[k] == stacks.heights[k] && word[stacks.tops[k] as usize - 1] == undo(a) {
        stacks.cut(&conflicts[k], k);
        return;
    }
    stacks.put(&conflicts[k], p, k);
}

// Reduces the word: all its letters, the last first, on stacks that are empty.
pub fn reduce<const N: usize>(
    word: &[u8],
    conflicts: &[[u16; 24]; 24],
    stacks: &mut LinkedStacks<N>,
)
    requires { (c : List ℕ) × Reducing c conflicts.now word.now stacks.old (length word.now) }
    ensures { (c : List ℕ)
        → Reducing c conflicts.now word.now stacks.old (length word.now)
        → Reducing c conflicts.now word.now stacks.new 0 }
{
    for i in (0..word.len()).rev() {
        step(word, conflicts, stacks, i);
    }
}
