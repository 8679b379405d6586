// The lead-in between two plans from their cores, in a row that is lent: the letters taken off in front of the first
// core, the lead-in from core to core, and the letters taken off in front of the second core, undone.

#![tactic(auto)]

ghost use Rattle.std.specs.Prelude.{ℕ, ◌≤◌, List, length};
ghost use Rattle.conjugacy_by_cores.specs.Join.{Cores, word_room, WordOutcome, FormRoom, PlansOutcome};

use array_row::{append, append_undone};
use conjugacy_of_cores::join_cores;
use conjugacy_of_parts::Outcome;
use long_form::form;

// A plan's core, and the letters taken off in front of it.
#[derive(Clone, Copy)]
pub struct Core<'a> {
    pub letters: &'a [u8],
    pub lead: &'a [u8],
}

// Whether the plans with these cores are joined, and the lead-in as a word at the start of the row, not yet in normal
// form.
fn lead_in_word(
    one: &Core<'_>,
    two: &Core<'_>,
    conflicts: &[[u16; 24]; 24],
    row: &mut [u8],
) -> Outcome
    requires { (c : List ℕ) × (v : List ℕ) × (w : List ℕ)
        × Cores c conflicts.now v w one.now.letters.now one.now.lead.now two.now.letters.now two.now.lead.now
        × (word_room c one.now.letters.now one.now.lead.now two.now.letters.now two.now.lead.now ≤ length row.old) }
    ensures { (c v w : List ℕ)
        → Cores c conflicts.now v w one.now.letters.now one.now.lead.now two.now.letters.now two.now.lead.now
        → word_room c one.now.letters.now one.now.lead.now two.now.letters.now two.now.lead.now ≤ length row.old
        → WordOutcome c v w row.new result }
{
    let at = append(row, 0, one.lead);
    let way = join_cores(one.letters, two.letters, conflicts, row, at);
    let Some(end) = way.end else {
        return way;
    };
    let last = append_undone(row, end, two.lead);
    Outcome {
        end: Some(last),
        rounds: way.rounds,
    }
}

// As `lead_in_word`, with the lead-in in normal form at the start of the area. The row is worked in.
pub fn lead_in_form(
    one: &Core<'_>,
    two: &Core<'_>,
    conflicts: &[[u16; 24]; 24],
    row: &mut [u8],
    area: &mut [u8],
) -> Outcome
    requires { (c : List ℕ) × (v : List ℕ) × (w : List ℕ)
        × FormRoom c conflicts.now v w one.now.letters.now one.now.lead.now two.now.letters.now two.now.lead.now
        (length row.old) area.old }
    ensures { (c v w : List ℕ)
        → FormRoom c conflicts.now v w one.now.letters.now one.now.lead.now two.now.letters.now two.now.lead.now
        (length row.old) area.old
        → PlansOutcome c v w area.old result area.new }
{
    let way = lead_in_word(one, two, conflicts, row);
    let Some(end) = way.end else {
        return way;
    };
    let length = form(&row[..end], conflicts, area);
    Outcome {
        end: Some(length),
        rounds: way.rounds,
    }
}
