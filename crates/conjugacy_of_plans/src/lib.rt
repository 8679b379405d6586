// Whether two plans that have passed their checks are joined, and the lead-in from one to the other, in normal form at
// the start of the area: their cores are found, and a row is chosen in which the lead-in is put together.

#![tactic(auto)]

ghost use Rattle.std.specs.Prelude.{ℕ, ◌≤◌, List};
ghost use Rattle.conjugacy_by_cores.specs.Join.{Plans, Cores, FormRoom, PlansRoom, PlansOutcome};

use conjugacy_by_cores::{Core, lead_in_form};
use conjugacy_of_parts::Outcome;
use piling_core_letters::core_of;

// As `lead_in_form`, with a row of so many bytes of its own. Each of its instances has a frame of its own, so that a
// call takes the stack of one row.
#[inline(never)]
fn join_in<const N: usize>(
    one: &Core<'_>,
    two: &Core<'_>,
    conflicts: &[[u16; 24]; 24],
    area: &mut [u8],
) -> Outcome
    requires { (N ≤ 50176) × ((c : List ℕ) × (v : List ℕ) × (w : List ℕ)
        × FormRoom c conflicts.now v w one.now.letters.now one.now.lead.now two.now.letters.now two.now.lead.now N
        area.old) }
    ensures { (c v w : List ℕ)
        → FormRoom c conflicts.now v w one.now.letters.now one.now.lead.now two.now.letters.now two.now.lead.now N
        area.old
        → PlansOutcome c v w area.old result area.new }
{
    let mut row: [u8; N] = array_row::row(0);
    lead_in_form(one, two, conflicts, &mut row, area)
}

// The same for n commands, in the shortest row that suffices, so that short cores clear little.
fn join_by_cores(
    one: &Core<'_>,
    two: &Core<'_>,
    n: usize,
    conflicts: &[[u16; 24]; 24],
    area: &mut [u8],
) -> Outcome
    requires { (c : List ℕ) × (v : List ℕ) × (w : List ℕ)
        × Cores c conflicts.now v w one.now.letters.now one.now.lead.now two.now.letters.now two.now.lead.now
        × PlansRoom c v w n area.old }
    ensures { (c v w : List ℕ)
        → Cores c conflicts.now v w one.now.letters.now one.now.lead.now two.now.letters.now two.now.lead.now
        → PlansRoom c v w n area.old → PlansOutcome c v w area.old result area.new }
{
    let need = n
        * (2 * one.lead.len() + one.letters.len() + (2 * two.lead.len() + two.letters.len()));
    if need <= 2048 {
        return join_in::<2048>(one, two, conflicts, area);
    }
    if need <= 8192 {
        return join_in::<8192>(one, two, conflicts, area);
    }
    if need <= 24576 {
        return join_in::<24576>(one, two, conflicts, area);
    }
    join_in::<50176>(one, two, conflicts, area)
}

// Whether two plans are joined, with so many commands, and the lead-in at the start of the area.
pub fn join_plans(
    v: &[u8],
    w: &[u8],
    commands: usize,
    conflicts: &[[u16; 24]; 24],
    area: &mut [u8],
) -> Outcome
    requires { (c : List ℕ) × Plans c conflicts.now v.now w.now
        × PlansRoom c v.now w.now commands area.old }
    ensures { (c : List ℕ) → Plans c conflicts.now v.now w.now
        → PlansRoom c v.now w.now commands area.old
        → PlansOutcome c v.now w.now area.old result area.new }
{
    let mut core1: [u8; 1024] = array_row::row(0);
    let mut lead1: [u8; 1024] = array_row::row(0);
    let one = core_of(v, conflicts, &mut core1, &mut lead1);
    let mut core2: [u8; 1024] = array_row::row(0);
    let mut lead2: [u8; 1024] = array_row::row(0);
    let two = core_of(w, conflicts, &mut core2, &mut lead2);
    let first = Core {
        letters: &core1[..one.core],
        lead: &lead1[..one.lead],
    };
    let second = Core {
        letters: &core2[..two.core],
        lead: &lead2[..two.lead],
    };
    join_by_cores(&first, &second, commands, conflicts, area)
}
