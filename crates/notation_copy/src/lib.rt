// Bytes of an area repeated or undone where they stand, and a command undone or not.

#![tactic(auto)]

ghost use Rattle.std.specs.Prelude.{◌+◌, ◌*◌, ◌-◌, ◌≤◌, ◌≡◌, length, take, drop};
ghost use Rattle.spec.specs.Notation.{repeated, signed_byte, signed_plan};
ghost use Rattle.array_row.specs.Row.{Appended};

use array_row::undo_between;

// Copies the bytes between two places so often, the first time where they stand, and gives the new end.
pub fn repeat(area: &mut [u8], from: usize, to: usize, count: usize) -> usize
    requires in_order { from ≤ to }
    requires once { 1 ≤ count }
    requires room { from + count * (to - from) ≤ length area.old }
    ensures { Appended area.old from (repeated count (drop from (take to area.old)))
        area.new result }
{
    if from == to {
        return to;
    }
    let width = to - from;
    // Each turn copies as many as stand, or as are wanted yet: so a count costs as many turns as it has bits.
    let mut n = 1;
    while n < count {
        let more = n.min(count - n);
        area.copy_within(from..from + more * width, from + n * width);
        n += more;
    }
    from + count * width
}

// Undoes the bytes between two places if a minus stands before them.
// `undone` is a bool, here and in `signed`: the text tells it, so no caller knows beforehand which of the two it wants.
pub fn undo_if(undone: bool, area: &mut [u8], from: usize, to: usize)
    requires { (from ≤ to) × (to ≤ length area.old) }
    ensures { Appended area.old from (signed_plan undone (drop from (take to area.old)))
        area.new to }
{
    if undone {
        undo_between(area, from, to);
    }
}

// A command, undone or not.
pub fn signed(undone: bool, k: u8) -> u8
    ensures { result ≡ signed_byte undone k }
{
    if undone { input_plan::undo(k) } else { k }
}
