// The call that tells what is wrong with a catalogue and its plans. The crate spec defines what it answers
// (specs/Fault.antt).

#![tactic(auto)]

ghost use Rattle.std.specs.Prelude.{◌≡◌};
ghost use Rattle.spec.specs.Answers.{told_fault};
ghost use Rattle.spec.specs.Fault.{fault_answer};

use spec::Refusal;

// The first of lines 1 to 8 and 17 that holds for a catalogue and up to three plans, the third a lead-in; a call with
// fewer has empty ones.
pub fn fault(catalogue: &[u8], v: &[u8], w: &[u8], u: &[u8]) -> Option<Refusal>
    ensures { told_fault result
        ≡ fault_answer catalogue.now v.now w.now u.now }
{
    let mut conflicts = input_conflicts::blank();
    input_checks::three_plans(catalogue, v, w, u, &mut conflicts).err()
}
