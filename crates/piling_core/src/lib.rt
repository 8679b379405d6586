// The core of what is left of a piling: pairs, a letter at the bottom of a row and its undo at the top, are taken off
// until no row has one.

#![tactic(auto)]

ghost use Rattle.std.specs.Prelude.{ℕ, ◌≤◌, ◌≡◌, true, List, ◌↔◌, length};
ghost use Rattle.array_counts.specs.First.{FirstFound};
ghost use Rattle.piling_read.specs.Reading.{Room};
ghost use Rattle.piling_core.specs.Peeling.{Ends, Pair, Movable, Moved, Peelable, Peeled};

use array_counts::{lift, lower};
use input_plan::undo;
use piling_stacks::Piling;

// Whether of the beads from `at` up to `height` the lowest is a letter and the highest, another bead, is its undo.
fn ends(row: &[u8; 1024], height: u16, at: u16) -> bool
    requires { (length row.now ≡ 1024) × (at ≤ height) × (height ≤ 1024) }
    ensures { (result ≡ true) ↔ Ends row.now height at }
{
    if at + 1 < height {
        let letter = row[at as usize];
        if letter != 0 {
            return row[height as usize - 1] == undo(letter);
        }
    }
    false
}

// The first row with a pair.
fn pair(piling: &Piling, at: &[u16; 24]) -> Option<usize>
    requires { Room piling.now.rows piling.now.heights at.now }
    ensures { FirstFound (Pair piling.now.rows piling.now.heights at.now) result }
{
    for i in 0..24 {
        if ends(&piling.rows[i], piling.heights[i], at[i]) {
            return Some(i);
        }
    }
    None
}

// Each height less the line's number there, and each bottom plus it.
fn narrow(heights: &mut [u16; 24], at: &mut [u16; 24], line: &[u16; 24])
    requires { Movable line.now heights.old at.old }
    ensures { Moved line.now heights.old at.old heights.new
        at.new }
{
    lower(heights, line);
    lift(at, line);
}

// Takes pairs off until none is left: the letters in front are written to lead, and their number is told.
pub fn peel(
    piling: &mut Piling,
    at: &mut [u16; 24],
    conflicts: &[[u16; 24]; 24],
    lead: &mut [u8],
) -> usize
    requires { (c : List ℕ) × (x : List ℕ)
        × Peelable c conflicts.now piling.old.rows piling.old.heights at.old x lead.old }
    ensures rows { piling.new.rows ≡ piling.old.rows }
    ensures peeled { (c x : List ℕ)
        → Peelable c conflicts.now piling.old.rows piling.old.heights at.old x lead.old
        → (z : List ℕ) × Peeled c piling.new.rows x lead.old piling.new.heights
        at.new lead.new result z }
{
    let mut l = 0;
    let mut first = pair(piling, at);
    while let Some(k) = first {
        lead[l] = piling.rows[k][at[k] as usize];
        l += 1;
        narrow(&mut piling.heights, at, &conflicts[k]);
        first = pair(piling, at);
    }
    l
}
