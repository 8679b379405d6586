// The call that checks a lead-in: it writes the normal forms of v·u and u·w and tells whether they are the same. The
// crate spec defines what it answers (specs/Loops.antt).

#![tactic(auto)]

ghost use Rattle.std.specs.Prelude.{◌≡◌};
ghost use Rattle.spec.specs.Answers.{told_lead_in};
ghost use Rattle.spec.specs.Loops.{check_answer, check_area0, check_area1};

use long_equal::compare;
use spec::{LeadIn, Refusal};

// Whether u is a lead-in from v to w. Afterwards area0 and area1 begin with the normal forms of v·u and u·w.
pub fn lead_in_check(
    catalogue: &[u8],
    v: &[u8],
    w: &[u8],
    u: &[u8],
    area0: &mut [u8],
    area1: &mut [u8],
) -> Result<LeadIn, Refusal>
    ensures answer { told_lead_in result ≡ check_answer catalogue.now v.now w.now
        u.now area0.old area1.old }
    ensures bytes0 { area0.new ≡ check_area0 catalogue.now v.now w.now
        u.now area0.old area1.old }
    ensures bytes1 { area1.new ≡ check_area1 catalogue.now v.now w.now
        u.now area0.old area1.old }
{
    let mut conflicts = input_conflicts::blank();
    input_checks::three_plans(catalogue, v, w, u, &mut conflicts)?;
    if area0.len() < v.len() + u.len() {
        return Err(input_checks::small_area(0));
    }
    if area1.len() < u.len() + w.len() {
        return Err(input_checks::small_area(1));
    }
    Ok(compare(v, w, u, &conflicts, area0, area1))
}
