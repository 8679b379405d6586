// The precedence check: whether letters of a normal form stay before others. The crate spec defines what it answers
// (specs/Precedence.antt).

#![tactic(auto)]

ghost use Rattle.std.specs.Prelude.{◌≡◌};
ghost use Rattle.spec.specs.Table.{line_of, line};
ghost use Rattle.spec.specs.Answers.{told_precedence};
ghost use Rattle.spec.specs.Precedence.{precedence_answer};

use schedule_precedence::{all_lead, first_faulty};
use spec::{Reason, Refusal};

// The refusal of a pair that is no two places of the normal form.
fn faulty_pair(p: usize) -> Refusal
    ensures { line_of result ≡ line 16 0 p }
{
    Refusal {
        reason: Reason::Places,
        plan: 0,
        place: p,
    }
}

// Whether, of the letters at places of plan's normal form, two by two, the first stays before the second.
pub fn precedence(catalogue: &[u8], plan: &[u8], places: &[u16]) -> Result<bool, Refusal>
    ensures { told_precedence result
        ≡ precedence_answer catalogue.now plan.now places.now }
{
    let mut conflicts = input_conflicts::blank();
    input_checks::one_plan(catalogue, plan, &mut conflicts)?;
    let mut form: [u8; 1024] = array_row::row(0);
    let letters = piling_form::form_alone(plan, &conflicts, &mut form);
    match first_faulty(places, letters) {
        None => Ok(all_lead(&form[..letters], &conflicts, places)),
        Some(p) => Err(faulty_pair(p)),
    }
}
