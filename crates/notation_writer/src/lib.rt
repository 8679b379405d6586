// The plan that a sequence writes out, written behind what stands in an area: a reader of sequences and a reader of
// items that call each other. A group is measured first, since its count stands behind it; then it is written once and
// copied, and a minus undoes the whole where it stands.
// Text and area stay whole and places move: from parts of them an answer would still have to say how much was used.

#![tactic(auto)]

ghost use Rattle.std.specs.Prelude.{◌≤◌, ◌<◌, ◌≡◌, true, length, drop};
ghost use Rattle.spec.specs.Notation.{tokens};
ghost use Rattle.notation_laws.specs.Here.{goes_on};
ghost use Rattle.notation_writer.specs.Writing.{Room, Wrote, WrotePart};

use notation_copy::{repeat, signed, undo_if};

// Where reading and writing have come to.
#[derive(Clone, Copy)]
pub struct Reached {
    pub at: usize,
    pub to: usize,
}

// What stands first in a sequence: a blank or an item.
#[cycle(item_items)]
fn item(text: &[u8], at: usize, nesting: usize, area: &mut [u8], to: usize) -> Reached
    requires { (Room text.now at nesting area.old to) × (goes_on (drop at (tokens text.now)) ≡ true) }
    ensures wrote_part { (m : Room text.now at nesting area.old to)
        → WrotePart text.now at nesting area.old to m area.new result }
    ensures at_lt_at { at < result.at }
{
    if notation_parts::stands(text, at, b' ') {
        return Reached { at: at + 1, to };
    }
    let from = notation_parts::past_minus(text, at);
    if !notation_parts::stands(text, from, b'(') {
        let n = notation_parts::number_at(text, from);
        area[to] = signed(at < from, n.value as u8);
        return Reached {
            at: n.end,
            to: to + 1,
        };
    }
    let inner = notation_measure::items(text, from + 1, 24, nesting - 1);
    let count = notation_parts::number_at(text, inner.end + 1);
    if count.value == 0 {
        return Reached { at: count.end, to };
    }
    let once = items(text, from + 1, nesting - 1, area, to);
    let end = repeat(area, to, once.to, count.value);
    undo_if(at < from, area, to, end);
    Reached {
        at: count.end,
        to: end,
    }
}

// A sequence, up to the text's end or to the closing bracket before which it ends.
#[cycle(item_items)]
pub fn items(text: &[u8], at: usize, nesting: usize, area: &mut [u8], to: usize) -> Reached
    requires { (Room text.now at nesting area.old to) × (at ≤ length text.now) }
    ensures { (m : Room text.now at nesting area.old to)
        → Wrote text.now at nesting area.old to m area.new result }
{
    let mut reached = Reached { at, to };
    // No count: the place moves by as much as an item takes.
    while notation_parts::goes_on(text, reached.at) {
        reached = item(text, reached.at, nesting, area, reached.to);
    }
    reached
}
