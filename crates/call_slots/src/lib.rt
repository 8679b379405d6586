// The slots call: the normal form of a plan with a slot beside each letter. The crate spec defines what it answers
// (specs/Slots.antt).

#![tactic(auto)]

ghost use Rattle.std.specs.Prelude.{◌≡◌};
ghost use Rattle.spec.specs.Answers.{told_slots};
ghost use Rattle.spec.specs.Slots.{slots_answer, slots_area, slots_numbers};

use spec::{Refusal, Slots};

// The normal form of plan, written at the start of area, and the slot of each of its letters, written at the start of
// slots.
pub fn slots(
    catalogue: &[u8],
    plan: &[u8],
    area: &mut [u8],
    slots: &mut [u16],
) -> Result<Slots, Refusal>
    ensures answer { told_slots result ≡ slots_answer catalogue.now plan.now area.old
        slots.old }
    ensures bytes { area.new ≡ slots_area catalogue.now plan.now
        area.old slots.old }
    ensures numbers { slots.new ≡ slots_numbers catalogue.now plan.now
        area.old slots.old }
{
    let mut conflicts = input_conflicts::blank();
    input_checks::one_plan(catalogue, plan, &mut conflicts)?;
    if area.len() < plan.len() {
        return Err(input_checks::small_area(0));
    }
    if slots.len() < plan.len() {
        return Err(input_checks::small_area(1));
    }
    let length = piling_form::form_alone(plan, &conflicts, area);
    let in_use = schedule_slots::number(&area[..length], &conflicts, slots);
    Ok(Slots { length, in_use })
}
