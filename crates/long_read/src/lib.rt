// Reading the stacks of a long word off: its letters in order, each time the top of the first stack that has a letter
// on top.

#![tactic(auto)]

ghost use Rattle.std.specs.Prelude.{ℕ, ◌≡◌, List};
ghost use Rattle.array_counts.specs.First.{NoneBelow, FirstFound};
ghost use Rattle.array_row.specs.Area.{ReadOff};
ghost use Rattle.long_stacks.specs.Linked.{LetterOnTop};
ghost use Rattle.long_read.specs.Reading.{Readable};

use long_stacks::LinkedStacks;

// The index of the first stack with a letter on top, if there is one. No stack below the start has one.
fn ready<const N: usize>(stacks: &LinkedStacks<N>, start: usize) -> Option<usize>
    requires { NoneBelow (LetterOnTop stacks.now) start }
    ensures { FirstFound (LetterOnTop stacks.now) result }
{
    for i in start..24 {
        if stacks.marks[i] == stacks.heights[i] {
            return Some(i);
        }
    }
    None
}

// Reads the stacks off into the area: each time the top of the first stack that has a letter on top. A letter changes
// only the stacks that conflict with its own: those below the first of these still have no letter on top, so that the
// search for the next goes on from there.
pub fn read_off<const N: usize>(
    word: &[u8],
    conflicts: &[[u16; 24]; 24],
    stacks: &mut LinkedStacks<N>,
    area: &mut [u8],
) -> usize
    requires { (c : List ℕ) × (x : List ℕ) × Readable c conflicts.now word.now stacks.old x area.old }
    ensures read { (c x : List ℕ)
        → Readable c conflicts.now word.now stacks.old x area.old
        → ReadOff c x area.old area.new result }
    ensures under { stacks.new.under ≡ stacks.old.under }
    ensures link { stacks.new.link ≡ stacks.old.link }
{
    let starts = array_starts::starts(conflicts);
    let mut l = 0;
    let mut start = 0;
    while let Some(k) = ready(stacks, start) {
        area[l] = word[stacks.tops[k] as usize - 1];
        l += 1;
        stacks.cut(&conflicts[k], k);
        start = starts[k] as usize;
    }
    l
}
