// Plans of bytes: `check` decides lines 7 and 8 of the manual's table for any bytes of any length, and `undo` gives
// the byte that undoes another.

#![tactic(auto)]

ghost use Rattle.std.specs.Prelude.{◌<◌, ◌≡◌, true, not, ◌↔◌, length, position};
ghost use Rattle.spec.specs.Table.{or_else, first_line};
ghost use Rattle.input_catalogue.specs.Checked.{told_checked};
ghost use Rattle.spec.specs.Plan.{passes, first_bad, plan_lines, Passing};
ghost use Rattle.spec.specs.Byte.{undone};
ghost use Rattle.input_plan.specs.Place.{told_place};

use input_catalogue::refused;
use spec::{Reason, Refusal};

// Does line 8 let this byte pass, with so many commands.
fn passing(b: u8, commands: usize) -> bool
    ensures { result ≡ passes commands b }
{
    let k = b as usize;
    if k <= commands {
        return true;
    }
    if k <= 128 {
        return false;
    }
    k - 128 <= commands
}

// Whether a byte does not pass, with fewer than 128 commands.
// Not `passing`, which is for any number of commands: here all is bytes, and neither contract serves both callers.
fn fails(b: u8, commands: u8) -> bool
    requires { commands < 128 }
    ensures { result ≡ not (passes commands b) }
{
    b == 128 || commands < b % 128
}

// Whether every byte passes. What fails is gathered, with no way out of the loop, so that many bytes are tested at a
// time.
fn all_pass(plan: &[u8], commands: u8) -> bool
    requires { commands < 128 }
    ensures { (result ≡ true) ↔ Passing commands plan.now }
{
    let mut failed = false;
    for b in plan {
        failed |= fails(*b, commands);
    }
    !failed
}

// The first byte that does not pass, byte by byte.
fn find_bad(plan: &[u8], commands: usize) -> Option<usize>
    ensures { result ≡ position (λ b. not (passes commands b)) plan.now }
{
    plan.iter().position(|b| !passing(*b, commands))
}

// The first byte that does not pass. Where there is none the byte by byte search is spared.
fn first_bad(plan: &[u8], commands: usize) -> Option<usize>
    ensures { told_place result ≡ first_bad commands plan.now }
{
    if commands < 128 && all_pass(plan, commands as u8) {
        return None;
    }
    find_bad(plan, commands)
}

// Lines 7 and 8 for the plan of this number, of at most so many bytes; a plan that passes gives its length.
pub fn check(plan: &[u8], commands: usize, number: u8, limit: usize) -> Result<usize, Refusal>
    ensures { told_checked result
        ≡ or_else (first_line (plan_lines number limit commands plan.now)) (length plan.now) }
{
    if limit < plan.len() {
        return refused(Reason::PlanSize, number, 0);
    }
    match first_bad(plan, commands) {
        None => Ok(plan.len()),
        Some(i) => refused(Reason::PlanByte, number, i),
    }
}

// The byte that undoes b: k and 128 + k are exchanged, 0 and 128 stay.
pub fn undo(b: u8) -> u8
    ensures { result ≡ undone b }
{
    if b == 0 {
        return b;
    }
    if b < 128 {
        return b + 128;
    }
    if b == 128 {
        return b;
    }
    b - 128
}
