// The stacks of a long word: a letter put on them, and a letter cut off. Heights are written 24 at a time, by `lift`
// and `lower` alone: a single one written in between would make the processor wait.

#![tactic(auto)]

ghost use Rattle.long_stacks.specs.Moves.{Puttable, Put, Cuttable, Cut};
ghost use Rattle.long_stacks.specs.Empty.{Empty};

use array_counts::{lift, lower};

// The stacks of a word of at most N letters. A stack is given by its height, by the place of its uppermost letter plus
// 1 and by that letter's mark, the height when it was put on; two rows beside the word keep what was under each letter,
// its mark (`under`) and its place plus 1 (`link`).
// `tops` and `link` hold a place plus 1, and 0 for none: an `Option` of a `u16` would be twice the bytes to clear.
#[derive(Drop)]
pub struct LinkedStacks<const N: usize> {
    pub under: [u16; N],
    pub link: [u16; N],
    pub tops: [u16; 24],
    pub marks: [u16; 24],
    pub heights: [u16; 24],
}

impl<const N: usize> LinkedStacks<N> {
    // Stacks with no letter.
    pub fn empty() -> Self
        ensures { Empty N result }
    {
        LinkedStacks {
            under: [0; N],
            link: [0; N],
            tops: [0; 24],
            marks: [0; 24],
            heights: [1; 24],
        }
    }

    // Puts the letter at place p, of command k + 1, on the stacks.
    pub fn put(&mut self, line: &[u16; 24], p: usize, k: usize)
        requires { Puttable self.old line.now p k }
        ensures { Put self.old line.now p k self.new }
    {
        self.under[p] = self.marks[k];
        self.link[p] = self.tops[k];
        lift(&mut self.heights, line);
        self.marks[k] = self.heights[k];
        self.tops[k] = (p + 1) as u16;
    }

    // Cuts the letter of command k + 1 that is on top off the stacks.
    pub fn cut(&mut self, line: &[u16; 24], k: usize)
        requires { Cuttable self.old line.now k }
        ensures { Cut self.old line.now k self.new }
    {
        let q = self.tops[k] as usize - 1;
        lower(&mut self.heights, line);
        self.marks[k] = self.under[q];
        self.tops[k] = self.link[q];
    }
}
