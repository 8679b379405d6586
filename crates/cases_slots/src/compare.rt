// What the library says of a plan, beside what the solver says.

ghost use Rattle.std.specs.Prelude.{◌≤◌};

use cases_report::{KEPT_BYTE, KEPT_NUMBER, Numbers, kept, letters, refused};
use cases_solver::{
    Arrangements, Refusal, all_stay_before, arrangements, check_slots, in_order, normal_form,
};
use spec::Slots;

// Is this what the solver says of the normal form and its slots, with nothing else changed in the slot area.
fn right(c: &[u8], plan: &[u8], told: Slots, area: &[u8], second: &Numbers) -> bool {
    let mut own = [KEPT_NUMBER; 1100];
    let n = cases_solver::slots(c, plan, &mut own);
    n == told.in_use && own == *second && letters(area, told.length) == normal_form(c, plan)
}

// Do library and solver agree on the slots of a plan, with areas of so many bytes and numbers.
pub fn slots_agree(c: &[u8], plan: &[u8], bytes: usize, numbers: usize) -> bool
    requires { (bytes ≤ 1100) × (numbers ≤ 1100) }
{
    let mut first = [KEPT_BYTE; 1100];
    let mut second = [KEPT_NUMBER; 1100];
    let answer = busplan::slots(c, plan, &mut first[..bytes], &mut second[..numbers]);
    let theirs = check_slots(c, plan, bytes, numbers);
    match answer {
        Ok(told) => {
            theirs.is_ok()
                && right(c, plan, told, &first, &second)
                && kept(&first, told.length, &KEPT_BYTE)
        }
        Err(refusal) => {
            theirs == Err(refused(refusal))
                && kept(&second, 0, &KEPT_NUMBER)
                && kept(&first, 0, &KEPT_BYTE)
        }
    }
}

// Do they agree on a list of places, whatever it is.
pub fn list_agrees(c: &[u8], plan: &[u8], places: &[u16]) -> bool {
    busplan::precedence(c, plan, places).map_err(refused) == in_order(c, plan, places)
}

// Do they agree on places i and j of a normal form that has these arrangements.
fn pair_agrees(c: &[u8], plan: &[u8], found: &Arrangements, i: u16, j: u16) -> bool {
    let places = [i, j];
    let theirs = if i == j {
        Err(Refusal {
            number: 16,
            plan: 0,
            place: 0,
        })
    } else {
        Ok(all_stay_before(found, &places))
    };
    busplan::precedence(c, plan, &places).map_err(refused) == theirs
}

// Do they agree on every two places of the normal form of a plan, of at most 6 letters.
pub fn pairs_agree(c: &[u8], plan: &[u8]) -> bool {
    let found = arrangements(c, plan);
    let letters = normal_form(c, plan).length as u16;
    for t in 0..36 {
        let (i, j) = (t / 6, t % 6);
        if i < letters && j < letters && !pair_agrees(c, plan, &found, i, j) {
            return false;
        }
    }
    true
}
