// The calls that write a form of a plan: its normal form, or its core in normal form. The crate spec defines what each
// answers (specs/Calls.antt).

#![tactic(auto)]

ghost use Rattle.std.specs.Prelude.{◌≡◌, length};
ghost use Rattle.spec.specs.Table.{line_of, line};
ghost use Rattle.spec.specs.Answers.{told_written, told_normal_form};
ghost use Rattle.spec.specs.Calls.{paired_answer, paired_area, paired_numbers, core_answer, core_area};
ghost use Rattle.piling_form.specs.Coring.{form};
ghost use Rattle.call_forms.specs.Forming.{WrittenForm, length_alone};

use spec::{NormalForm, Reason, Refusal};

// The refusal of a second area that is too small.
fn small_pairs() -> Refusal
    ensures { line_of result ≡ line 12 0 1 }
{
    Refusal {
        reason: Reason::PairsSize,
        plan: 0,
        place: 1,
    }
}

// The normal form of plan, or of its core, written at the start of area, and the pairs that cancelled at the start of
// pairs. A bool tells it, for the reason at piling_form::peel_if.
fn write_form(
    catalogue: &[u8],
    plan: &[u8],
    area: &mut [u8],
    pairs: &mut [u16],
    cored: bool,
) -> Result<NormalForm, Refusal>
    ensures { WrittenForm (form cored) catalogue.now plan.now area.old
        pairs.old (told_normal_form result) area.new pairs.new }
{
    let mut conflicts = input_conflicts::blank();
    input_checks::one_plan(catalogue, plan, &mut conflicts)?;
    if area.len() < plan.len() {
        return Err(input_checks::small_area(0));
    }
    if pairs.len() < plan.len() {
        return Err(small_pairs());
    }
    let formed = piling_form::form(plan, &conflicts, area, pairs, cored);
    Ok(NormalForm {
        length: formed.form,
        pairs: formed.pairs,
    })
}

// The normal form of plan, written at the start of area, and the places of the letters that cancelled with each other,
// written two by two at the start of pairs.
pub fn normal_form(
    catalogue: &[u8],
    plan: &[u8],
    area: &mut [u8],
    pairs: &mut [u16],
) -> Result<NormalForm, Refusal>
    ensures answer { told_normal_form result ≡ paired_answer catalogue.now plan.now
        area.old pairs.old }
    ensures bytes { area.new ≡ paired_area catalogue.now plan.now
        area.old pairs.old }
    ensures numbers { pairs.new ≡ paired_numbers catalogue.now plan.now
        area.old pairs.old }
{
    write_form(catalogue, plan, area, pairs, false)
}

// A row for the pairs of the longest plan, for a caller who does not hand them out.
pub fn own_pairs() -> [u16; 1024]
    ensures { 1024 ≡ length result }
{
    array_row::row(0)
}

// The length alone of a normal form.
pub fn length_alone(answer: Result<NormalForm, Refusal>) -> Result<usize, Refusal>
    ensures { told_written result ≡ length_alone (told_normal_form answer) }
{
    answer.map(|form| form.length)
}

// The core of plan, in normal form, written at the start of area.
pub fn core(catalogue: &[u8], plan: &[u8], area: &mut [u8]) -> Result<usize, Refusal>
    ensures answer { told_written result
        ≡ core_answer catalogue.now plan.now area.old }
    ensures bytes { area.new
        ≡ core_area catalogue.now plan.now area.old }
{
    let mut pairs = own_pairs();
    length_alone(write_form(catalogue, plan, area, &mut pairs, true))
}
