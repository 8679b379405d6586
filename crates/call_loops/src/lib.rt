// The call that decides whether two loops are joined, and writes a lead-in. The crate spec defines what it answers
// (specs/Loops.antt).

#![tactic(auto)]

ghost use Rattle.std.specs.Prelude.{◌≡◌};
ghost use Rattle.spec.specs.Answers.{told_loops};
ghost use Rattle.spec.specs.Loops.{Looped};
ghost use Rattle.conjugacy_of_parts.specs.Outcomes.{told_outcome};

use conjugacy_of_parts::Outcome;
use spec::{Loops, Refusal};

// The outcome as the answer of the loops call: its end, a place in a row for the crates below, is a length here.
fn verdict(outcome: Outcome) -> Loops
    ensures { told_loops (Ok result) ≡ told_outcome outcome }
{
    Loops {
        lead_in: outcome.end,
        rounds: outcome.rounds,
    }
}

// Whether two loops are joined, and how many rounds the part of either core takes that takes most. Where they are
// joined, a lead-in from v to w stands at the start of area, in normal form.
pub fn loops(catalogue: &[u8], v: &[u8], w: &[u8], area: &mut [u8]) -> Result<Loops, Refusal>
    ensures { Looped catalogue.now v.now w.now area.old (told_loops result)
        area.new }
{
    let mut conflicts = input_conflicts::blank();
    let commands = input_checks::two_plans(catalogue, v, w, &mut conflicts)?;
    if area.len() < commands * (v.len() + w.len()) {
        return Err(input_checks::small_area(0));
    }
    Ok(verdict(conjugacy_of_plans::join_plans(v, w, commands, &conflicts, area)))
}
