// The normal form of a plan that has passed its checks, or that of its core: the plan is piled up, pairs are taken off
// where the core is wanted, and what is left is read off. A piling is a local value: an array of rows beside an array of
// heights.

#![tactic(auto)]

ghost use Rattle.std.specs.Prelude.{ℕ, ◌≤◌, ◌≡◌, List, length};
ghost use Rattle.array_row.specs.Area.{StartsWith};
ghost use Rattle.input_checks.specs.Passed.{Passed};
ghost use Rattle.spec.specs.Letters.{normal_form};
ghost use Rattle.piling_pairs.specs.Pairing.{PairsOf};
ghost use Rattle.piling_form.specs.Coring.{form, Whole, Remains};

use piling_stacks::Piling;

// The length of the form, and the number of the pairs that cancelled.
#[derive(Clone, Copy)]
pub struct Formed {
    pub form: usize,
    pub pairs: usize,
}

// Takes pairs off, as `peel` does, where the core is wanted; else nothing changes. A bool tells it, and no closure: the
// definition `form` of specs/Coring, by which the promises of both are one, is over it.
fn peel_if(piling: &mut Piling, at: &mut [u16; 24], conflicts: &[[u16; 24]; 24], cored: bool)
    requires { (c : List ℕ) × (x : List ℕ)
        × Whole c conflicts.now piling.old.rows piling.old.heights at.old x }
    ensures { (c x : List ℕ)
        → Whole c conflicts.now piling.old.rows piling.old.heights at.old x
        → (z : List ℕ) × Remains c piling.new.rows x piling.new.heights at.new cored z }
{
    if cored {
        let mut lead: [u8; 512] = array_row::row(0);
        piling_core::peel(piling, at, conflicts, &mut lead);
    }
}

// Writes the normal form of plan, or that of its core, at the start of area, and the pairs of plan at the start of
// pairs. An empty plan clears no rows.
pub fn form(
    plan: &[u8],
    conflicts: &[[u16; 24]; 24],
    area: &mut [u8],
    pairs: &mut [u16],
    cored: bool,
) -> Formed
    requires { (c : List ℕ) × Passed c conflicts.now plan.now × (length plan.now ≤ length area.old)
        × (length plan.now ≤ length pairs.old) }
    ensures formed { (c : List ℕ) → Passed c conflicts.now plan.now
        → StartsWith (form cored c plan.now) area.old area.new result.form }
    ensures paired { (c : List ℕ) → Passed c conflicts.now plan.now
        → PairsOf c plan.now pairs.old pairs.new result.pairs }
{
    if plan.len() == 0 {
        return Formed { form: 0, pairs: 0 };
    }
    let mut piling = Piling::blank();
    let piled = piling_pairs::pile(plan, conflicts, &mut piling, pairs);
    let mut bottoms = array_counts::blank_heights();
    peel_if(&mut piling, &mut bottoms, conflicts, cored);
    let left = piling_read::read_off(piling, bottoms, conflicts, area);
    Formed {
        form: left,
        pairs: piled.pairs,
    }
}

// The normal form of plan for a caller who does not hand out pairs, and its length.
pub fn form_alone(plan: &[u8], conflicts: &[[u16; 24]; 24], area: &mut [u8]) -> usize
    requires { (c : List ℕ) × Passed c conflicts.now plan.now × (length plan.now ≤ length area.old) }
    ensures { (c : List ℕ) → Passed c conflicts.now plan.now
        → StartsWith (normal_form c plan.now) area.old area.new result }
{
    let mut pairs: [u16; 1024] = array_row::row(0);
    let formed = form(plan, conflicts, area, &mut pairs, false);
    formed.form
}
