// The checks that every call goes through first: the catalogue, then its plans in their order. An answer that passes
// carries the number of commands, and the rows then hold the conflicts. `small_area` is the refusal of an area, which
// comes after.

#![tactic(auto)]

ghost use Rattle.std.specs.Prelude.{ℕ, ◌≡◌, List, ◌++◌};
ghost use Rattle.std.proofs.Math.Option.{Option};
ghost use Rattle.spec.specs.Table.{Line, line, line_of};
ghost use Rattle.spec.specs.Catalogue.{commands};
ghost use Rattle.spec.specs.Plan.{plan_lines};
ghost use Rattle.input_conflicts.specs.MarkedRows.{Blank};
ghost use Rattle.input_checks.specs.Entry.{Told, OnePlan, TwoPlans, ThreePlans};

use spec::{Reason, Refusal};

// Lines 1 to 8 and 17 for one plan.
pub fn one_plan(
    catalogue: &[u8],
    plan: &[u8],
    conflicts: &mut [[u16; 24]; 24],
) -> Result<usize, Refusal>
    requires { Blank conflicts.old }
    ensures { OnePlan catalogue.now plan.now conflicts.new result }
{
    let commands = input_conflicts::read(catalogue, conflicts)?;
    input_plan::check(plan, commands, 1, 1024)?;
    Ok(commands)
}

// Lines 1 to 8 and 17 for two plans, the first before the second.
pub fn two_plans(
    catalogue: &[u8],
    v: &[u8],
    w: &[u8],
    conflicts: &mut [[u16; 24]; 24],
) -> Result<usize, Refusal>
    requires { Blank conflicts.old }
    ensures { TwoPlans catalogue.now v.now w.now conflicts.new result }
{
    let commands = one_plan(catalogue, v, conflicts)?;
    input_plan::check(w, commands, 2, 1024)?;
    Ok(commands)
}

// Lines 1 to 8 and 17 for two plans and a lead-in.
pub fn three_plans(
    catalogue: &[u8],
    v: &[u8],
    w: &[u8],
    u: &[u8],
    conflicts: &mut [[u16; 24]; 24],
) -> Result<usize, Refusal>
    requires { Blank conflicts.old }
    ensures { ThreePlans catalogue.now v.now w.now u.now
        conflicts.new result }
{
    let commands = two_plans(catalogue, v, w, conflicts)?;
    input_plan::check(u, commands, 3, 49152)?;
    Ok(commands)
}

// The refusal of an area that is too small.
pub fn small_area(area: usize) -> Refusal
    ensures { line_of result ≡ line 9 0 area }
{
    Refusal {
        reason: Reason::AreaSize,
        plan: 0,
        place: area,
    }
}
