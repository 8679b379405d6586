// The slots of the letters of a word. For each command the smallest slot is kept that the letters so far leave to a
// letter of it.

#![tactic(auto)]

ghost use Rattle.std.specs.Prelude.{ℕ, List};
ghost use Rattle.schedule_slots.specs.Numbering.{Numberable, SlotsOf};

use array_counts::{larger, raise};

// Writes the slot of each letter of word at the start of slots, and tells how many different ones there are.
pub fn number(word: &[u8], conflicts: &[[u16; 24]; 24], slots: &mut [u16]) -> usize
    requires { (c : List ℕ) × Numberable c word.now conflicts.now slots.old }
    ensures { (c : List ℕ) → Numberable c word.now conflicts.now slots.old
        → SlotsOf c word.now slots.old slots.new result }
{
    let mut left = array_counts::blank_heights();
    let mut in_use = 0;
    for (i, letter) in word.iter().enumerate() {
        let k = (*letter % 128) as usize - 1;
        let slot = left[k];
        slots[i] = slot;
        raise(&mut left, &conflicts[k], slot + 1);
        in_use = larger(in_use, slot + 1);
    }
    in_use as usize
}
