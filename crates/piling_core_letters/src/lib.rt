// The core of a plan that has passed its checks, its letters in the order of the plan, with the letters taken off in
// front of it: the plan is piled up, pairs are taken off, and the letters left are copied. Nothing is read off.

#![tactic(auto)]

ghost use Rattle.std.specs.Prelude.{ℕ, List};
ghost use Rattle.input_checks.specs.Passed.{Passed};
ghost use Rattle.piling_core_letters.specs.CoreLetters.{Room, CoreLetters};

// The number of the core's letters, and that of the letters taken off in front.
#[derive(Clone, Copy)]
pub struct Cored {
    pub core: usize,
    pub lead: usize,
}

// Writes the core's letters at the start of area, and those taken off in front at the start of lead. Where no letter is
// left of the plan there is nothing to take off.
pub fn core_of(plan: &[u8], conflicts: &[[u16; 24]; 24], area: &mut [u8], lead: &mut [u8]) -> Cored
    requires { (c : List ℕ) × Passed c conflicts.now plan.now × Room plan.now area.old lead.old }
    ensures { (c : List ℕ) → Passed c conflicts.now plan.now
        → CoreLetters c plan.now area.new lead.new result.core result.lead }
{
    let mut piling = piling_stacks::Piling::blank();
    let mut places: [u16; 1024] = array_row::row(0);
    let piled = piling_pairs::pile(plan, conflicts, &mut piling, &mut places);
    if piled.letters == 0 {
        return Cored { core: 0, lead: 0 };
    }
    let mut bottoms = array_counts::blank_heights();
    let taken = piling_core::peel(&mut piling, &mut bottoms, conflicts, lead);
    let paired = 2 * piled.pairs;
    let left = piling_left::letters_left(plan, &places[..paired], &lead[..taken], area);
    Cored {
        core: left,
        lead: taken,
    }
}
