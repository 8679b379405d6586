// What the library says of a plan, beside what the solver says.

ghost use Rattle.std.specs.Prelude.{◌≤◌};

use cases_report::{KEPT_BYTE, KEPT_NUMBER, Numbers, kept, refused};
use cases_solver::check_normal_form;
use spec::NormalForm;

// Are the letters of a plan those of so many pairs and those left.
fn counted(plan: &[u8], pairs: usize, left: usize) -> bool {
    let letters = plan.iter().filter(|b| **b != 0).count();
    pairs <= 1024 && left <= 1024 && 2 * pairs + left == letters
}

// Is this what the solver says of the pairs, with nothing else changed in the second area.
fn right(c: &[u8], plan: &[u8], form: NormalForm, second: &Numbers) -> bool {
    let mut own = [KEPT_NUMBER; 1100];
    let n = cases_solver::pairs(c, plan, &mut own);
    n == form.pairs && own == *second && counted(plan, form.pairs, form.length)
}

// Do library and solver agree on a plan, with areas of so many bytes and numbers.
pub fn agree(c: &[u8], plan: &[u8], bytes: usize, numbers: usize) -> bool
    requires { (bytes ≤ 1100) × (numbers ≤ 1100) }
{
    let mut first = [KEPT_BYTE; 1100];
    let mut second = [KEPT_NUMBER; 1100];
    let answer = busplan::normal_form(c, plan, &mut first[..bytes], &mut second[..numbers]);
    let theirs = check_normal_form(c, plan, bytes, numbers);
    match answer {
        Ok(form) => {
            theirs.is_ok() && right(c, plan, form, &second) && kept(&first, form.length, &KEPT_BYTE)
        }
        Err(refusal) => {
            theirs == Err(refused(refusal))
                && kept(&second, 0, &KEPT_NUMBER)
                && kept(&first, 0, &KEPT_BYTE)
        }
    }
}
