// The call that compares the effects of two plans. The crate spec defines what it answers (specs/Calls.antt).

#![tactic(auto)]

ghost use Rattle.std.specs.Prelude.{◌≡◌};
ghost use Rattle.spec.specs.Answers.{told_equality};
ghost use Rattle.spec.specs.Calls.{equal_answer};

use spec::Refusal;

// Whether two plans have the same effect.
pub fn equal(catalogue: &[u8], v: &[u8], w: &[u8]) -> Result<bool, Refusal>
    ensures { told_equality result
        ≡ equal_answer catalogue.now v.now w.now }
{
    let mut conflicts = input_conflicts::blank();
    input_checks::two_plans(catalogue, v, w, &mut conflicts)?;
    Ok(piling_equal::equal(v, w, &conflicts))
}
