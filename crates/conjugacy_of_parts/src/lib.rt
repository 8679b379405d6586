// Whether one part of a core is joined to the same part of another, and the lead-in between them: the letters that
// settling the first cycles, the ring up to the place at which the rings agree, and the letters that settling the
// second cycles, undone.

#![tactic(auto)]

ghost use Rattle.std.specs.Prelude.{ℕ, ◌≡◌, List, [], ◌∷◌, ◌++◌, take};
ghost use Rattle.conjugacy_of_parts.specs.Parts.{RingsRoom, RingsOutcome, Partable, PartsOutcome};

use array_row::{append_undone, undo_between};
use conjugacy_ring::ring_of;
use conjugacy_rotation::rotation;
use conjugacy_rounds::larger;

// The end of a lead-in, where two loops are joined; and the most rounds that a part took, joined or not. The end is a
// place in a row, and only for whole plans the length that `spec::Loops` has.
#[derive(Clone, Copy)]
pub struct Outcome {
    pub end: Option<usize>,
    pub rounds: usize,
}

// Where a ring is a rotation of another, the end of the way between them behind the first bytes of the row: the ring up
// to the place at which they agree, and the letters cycled, undone. Those stand in the row up to `at`; the ring's
// letters are put behind them, undone, and then all of it is undone where it stands.
fn join_rings(ring: &[u8], other: &[u8], row: &mut [u8], from: usize, at: usize) -> Option<usize>
    requires { RingsRoom ring.now row.old from at }
    ensures { (c cycled : List ℕ) → take at row.old ≡ take from row.old ++ cycled
        → RingsOutcome c ring.now other.now cycled row.old from row.new
        result }
{
    let start = rotation(ring, other)?;
    let end = append_undone(row, at, &ring[..start]);
    undo_between(row, from, end);
    Some(end)
}

// Whether the first core's part with this apex is joined to the second's, and the lead-in behind the first bytes of the
// row; with the rounds of the one that took more.
pub fn join_part(
    part1: &[u8],
    part2: &[u8],
    apex: u8,
    conflicts: &[[u16; 24]; 24],
    row: &mut [u8],
    at: usize,
) -> Outcome
    requires { (c : List ℕ) × (x : List ℕ) × (y : List ℕ)
        × Partable c conflicts.now x y apex part1.now part2.now row.old at }
    ensures { (c x y : List ℕ)
        → Partable c conflicts.now x y apex part1.now part2.now row.old at
        → PartsOutcome c x y (apex ∷ []) row.old at row.new result }
{
    let mut ring: [u8; 1024] = array_row::row(0);
    let mut other: [u8; 1024] = array_row::row(0);
    let one = ring_of(part1, apex, conflicts, &mut ring, row, at);
    let two = ring_of(part2, apex, conflicts, &mut other, row, one.cycled);
    let end = join_rings(
        &ring[..one.letters],
        &other[..two.letters],
        row,
        one.cycled,
        two.cycled,
    );
    Outcome {
        end,
        rounds: larger(one.rounds, two.rounds),
    }
}
