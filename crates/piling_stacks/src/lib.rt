// The piling of a plan: one stack of beads for each command. A letter cancels with its undo on top of the stack of its
// own command, or puts its byte there and a 0 on each other stack whose command conflicts with it.

#![tactic(auto)]

ghost use Rattle.std.specs.Prelude.{ℕ, ◌<◌, ◌≡◌, List, ◌∷◌};
ghost use Rattle.spec.specs.Byte.{command_of, undone};
ghost use Rattle.array_counts.specs.Blank.{blank_heights};
ghost use Rattle.piling_stacks.specs.Blank.{blank_rows};
ghost use Rattle.piling_stacks.specs.Piling.{Piled};
ghost use Rattle.piling_stacks.specs.Push.{Facing, Ready, Cancelled};

use array_counts::{lift, lower};

// A piling as arrays: for each command a row of beads, bottoms first, and how high its stack stands there.
#[derive(Drop)]
pub struct Piling {
    pub rows: [[u8; 1024]; 24],
    pub heights: [u16; 24],
}

// The undo of a byte of some command. Not input_plan::undo: its tests for 0 and 128 cost time in the loop over letters.
pub fn opposite(letter: u8) -> u8
    requires { 0 < command_of letter }
    ensures { result ≡ undone letter }
{
    if letter < 128 {
        letter + 128
    } else {
        letter - 128
    }
}

impl Piling {
    // A piling with no bead.
    #[tactic(auto, unfolding(crate::specs::Blank::blank_rows))]
    pub fn blank() -> Piling
        ensures rows { result.rows ≡ blank_rows }
        ensures heights { result.heights ≡ blank_heights }
    {
        Piling {
            rows: [[0; 1024]; 24],
            heights: array_counts::blank_heights(),
        }
    }

    // Takes a letter's undo off the piling, if it is on top of the stack of the letter's command k + 1, whose line of
    // conflicts tells which stacks it meets. Whether it was there. The bead is written last: so the compiler changes
    // eight heights at a time.
    pub fn cancel(&mut self, line: &[u16; 24], k: usize, letter: u8) -> bool
        requires { (c : List ℕ) × (z : List ℕ) × Facing c self.old.rows self.old.heights line.now k letter z }
        ensures { (c z : List ℕ)
            → Facing c self.old.rows self.old.heights line.now k letter z
            → Cancelled c self.new.rows self.new.heights letter z result }
    {
        let h = self.heights[k] as usize;
        if h > 0 {
            if self.rows[k][h - 1] == opposite(letter) {
                lower(&mut self.heights, line);
                self.rows[k][h - 1] = 0;
                return true;
            }
        }
        false
    }

    // Puts a letter of command k + 1 on the piling. Past a stack's height all is 0, so that no 0 has to be written.
    pub fn put(&mut self, line: &[u16; 24], k: usize, letter: u8)
        requires { (c : List ℕ) × (z : List ℕ) × Ready c self.old.rows self.old.heights line.now k letter z }
        ensures { (c z : List ℕ)
            → Ready c self.old.rows self.old.heights line.now k letter z
            → Piled c self.new.rows self.new.heights (letter ∷ z) }
    {
        let h = self.heights[k] as usize;
        lift(&mut self.heights, line);
        self.rows[k][h] = letter;
    }
}
