// One part of a core, settled on its apex.

#![tactic(auto)]

ghost use Rattle.std.specs.Prelude.{ℕ, ◌≤◌, List, length};
ghost use Rattle.conjugacy_settled_parts.specs.PartOf.{PartOf, SettledOf};

use array_row::{append, row};
use conjugacy_settling::settle;

// How many letters a part has, the end of the letters that settling it cycled, and how many rounds that took.
#[derive(Clone, Copy)]
pub struct Ends {
    pub letters: usize,
    pub cycled: usize,
    pub rounds: usize,
}

// The part with this apex, settled, at the start of word, and from a place in cycled on the letters that settling
// cycles.
pub fn settle_part(
    part: &[u8],
    apex: u8,
    conflicts: &[[u16; 24]; 24],
    word: &mut [u8],
    cycled: &mut [u8],
    at: usize,
) -> Ends
    requires { ((c : List ℕ) × (x : List ℕ) × PartOf c conflicts.now x apex part.now cycled.old at)
        × (length part.now ≤ length word.old) }
    ensures { (c x : List ℕ)
        → PartOf c conflicts.now x apex part.now cycled.old at
        → SettledOf c x apex word.new cycled.old cycled.new at result }
{
    let mut letters: [u8; 1024] = row(0);
    let n = append(&mut letters, 0, part);
    let settled = settle(
        &mut letters[..n],
        apex as usize,
        conflicts,
        word,
        cycled,
        at,
    );
    Ends {
        letters: n,
        cycled: settled.end,
        rounds: settled.rounds,
    }
}
