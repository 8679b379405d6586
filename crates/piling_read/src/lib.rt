// Reading a piling off: its letters in order, taken off the bottoms of its stacks. The next is each time the lowest
// bead of the first row whose lowest bead is no blank.

#![tactic(auto)]

ghost use Rattle.std.specs.Prelude.{ℕ, List};
ghost use Rattle.array_row.specs.Area.{ReadOff};
ghost use Rattle.array_counts.specs.First.{NoneBelow, FirstFound};
ghost use Rattle.piling_read.specs.Reading.{Room, Ready, Readable};

use piling_stacks::Piling;

// The first row whose lowest bead left is no blank. While letters are left few rows are empty, so the bead is looked at
// before the height.
fn ready(piling: &Piling, at: &[u16; 24]) -> Option<usize>
    requires { Room piling.now.rows piling.now.heights at.now }
    ensures { FirstFound (Ready piling.now.rows piling.now.heights at.now) result }
{
    for k in 0..24 {
        if piling.rows[k][at[k] as usize % 1024] != 0 {
            if at[k] < piling.heights[k] {
                return Some(k);
            }
        }
    }
    None
}

// As `ready`, where no row below the start is ready. A search of its own: one that always takes a start is slower.
fn ready_from(piling: &Piling, at: &[u16; 24], start: usize) -> Option<usize>
    requires { Room piling.now.rows piling.now.heights at.now
        × NoneBelow (Ready piling.now.rows piling.now.heights at.now) start }
    ensures { FirstFound (Ready piling.now.rows piling.now.heights at.now) result }
{
    for k in start..24 {
        if at[k] < piling.heights[k] {
            if piling.rows[k][at[k] as usize] != 0 {
                return Some(k);
            }
        }
    }
    None
}

// As `ready_from`. The loop over all rows is unrolled and takes less for each, so a low start does not pay.
fn next(piling: &Piling, at: &[u16; 24], start: usize) -> Option<usize>
    requires { Room piling.now.rows piling.now.heights at.now
        × NoneBelow (Ready piling.now.rows piling.now.heights at.now) start }
    ensures { FirstFound (Ready piling.now.rows piling.now.heights at.now) result }
{
    if start < 6 {
        return ready(piling, at);
    }
    ready_from(piling, at, start)
}

// Reads off what is left above the bottoms: each time the lowest bead of the first row that is ready. A letter moves
// only the rows that conflict with its own, so those below the first of these stay as they were: not ready. Neither this
// nor the search over all rows, which has two calls, is inlined: where one was, the piling by value of `read_off` was
// copied.
#[inline(never)]
fn read(piling: &Piling, at: &mut [u16; 24], conflicts: &[[u16; 24]; 24], area: &mut [u8]) -> usize
    requires { (c : List ℕ) × (x : List ℕ)
        × Readable c conflicts.now piling.now.rows piling.now.heights at.old x area.old }
    ensures { (c x : List ℕ)
        → Readable c conflicts.now piling.now.rows piling.now.heights at.old x area.old
        → ReadOff c x area.old area.new result }
{
    let starts = array_starts::starts(conflicts);
    let mut l = 0;
    let mut first = ready(piling, at);
    while let Some(k) = first {
        area[l] = piling.rows[k][at[k] as usize];
        l += 1;
        array_counts::lift(at, &conflicts[k]);
        first = next(piling, at, starts[k] as usize);
    }
    l
}

// Writes the word whose stacks the piling has above the bottoms, in order, and tells its length.
pub fn read_off(
    piling: Piling,
    at: [u16; 24],
    conflicts: &[[u16; 24]; 24],
    area: &mut [u8],
) -> usize
    requires { (c : List ℕ) × (x : List ℕ)
        × Readable c conflicts.now piling.rows piling.heights at x area.old }
    ensures { (c x : List ℕ) → Readable c conflicts.now piling.rows piling.heights at x area.old
        → ReadOff c x area.old area.new result }
{
    let mut bottoms = at;
    read(&piling, &mut bottoms, conflicts, area)
}
