// The static library for callers from C: the calls as the console makes them, each handed to the crate busplan, over
// slices of bytes and of 16-bit numbers: each a pointer and a length. The answer is a number, which
// spec/specs/Codes.antt gives for each case of a call's answer.

#![tactic(auto)]

ghost use Rattle.std.specs.Prelude.{◌≡◌};
ghost use Rattle.spec.specs.Codes.{length_code, equal_code, LoopedCode, check_code, fault_code};
ghost use Rattle.spec.specs.Codes.{slots_code, in_use_number, precedence_code};
ghost use Rattle.spec.specs.Calls.{normal_form_answer, normal_form_area, core_answer, core_area, equal_answer};
ghost use Rattle.spec.specs.Slots.{slots_answer, slots_area, slots_numbers};
ghost use Rattle.spec.specs.Precedence.{precedence_answer, precedence_fault};
ghost use Rattle.spec.specs.Loops.{check_answer, check_area0, check_area1};
ghost use Rattle.spec.specs.Fault.{fault_answer, fault_numbers};
ghost use Rattle.spec.specs.WriteOut.{write_out_answer, write_out_area, text_fault};

#[unsafe(no_mangle)]
pub extern "C" fn busplan_normal_form(catalogue: &[u8], plan: &[u8], area: &mut [u8]) -> i64
    ensures answer { result
        ≡ length_code (normal_form_answer catalogue.now plan.now area.old) }
    ensures bytes { area.new
        ≡ normal_form_area catalogue.now plan.now area.old }
{
    let mut pairs = call_forms::own_pairs();
    let formed = busplan::normal_form(catalogue, plan, area, &mut pairs);
    call_codes::length_code(call_forms::length_alone(formed))
}

#[unsafe(no_mangle)]
pub extern "C" fn busplan_core(catalogue: &[u8], plan: &[u8], area: &mut [u8]) -> i64
    ensures answer { result
        ≡ length_code (core_answer catalogue.now plan.now area.old) }
    ensures bytes { area.new
        ≡ core_area catalogue.now plan.now area.old }
{
    call_codes::length_code(busplan::core(catalogue, plan, area))
}

// in_use receives how many slots are in use.
#[unsafe(no_mangle)]
pub extern "C" fn busplan_slots(
    catalogue: &[u8],
    plan: &[u8],
    area: &mut [u8],
    slots: &mut [u16],
    in_use: &mut [u64; 1],
) -> i64
    ensures answer { result ≡ slots_code (slots_answer catalogue.now plan.now area.old
        slots.old) }
    ensures bytes { area.new ≡ slots_area catalogue.now plan.now
        area.old slots.old }
    ensures numbers { slots.new ≡ slots_numbers catalogue.now plan.now
        area.old slots.old }
    ensures number { in_use.new ≡ in_use_number (slots_answer catalogue.now plan.now
        area.old slots.old) in_use.old }
{
    let answer = busplan::slots(catalogue, plan, area, slots);
    *in_use = call_codes::slots_number(answer, *in_use);
    call_codes::slots_code(answer)
}

#[unsafe(no_mangle)]
pub extern "C" fn busplan_precedence(catalogue: &[u8], plan: &[u8], places: &[u16]) -> i64
    ensures { result ≡ precedence_code (precedence_answer catalogue.now plan.now
        places.now) }
{
    call_codes::precedence_code(busplan::precedence(catalogue, plan, places))
}

// fault receives the plan and the place.
#[unsafe(no_mangle)]
pub extern "C" fn busplan_precedence_fault(
    catalogue: &[u8],
    plan: &[u8],
    places: &[u16],
    fault: &mut [u64; 2],
) -> i64
    ensures answer { result ≡ fault_code (precedence_fault catalogue.now plan.now
        places.now) }
    ensures numbers { fault.new ≡ fault_numbers (precedence_fault catalogue.now
        plan.now places.now) fault.old }
{
    let refused = call_codes::precedence_fault(busplan::precedence(catalogue, plan, places));
    *fault = call_codes::fault_numbers(refused, *fault);
    call_codes::fault_code(refused)
}

#[unsafe(no_mangle)]
pub extern "C" fn busplan_equal(catalogue: &[u8], v: &[u8], w: &[u8]) -> i64
    ensures { result ≡ equal_code (equal_answer catalogue.now v.now w.now) }
{
    call_codes::equal_code(busplan::equal(catalogue, v, w))
}

#[unsafe(no_mangle)]
pub extern "C" fn busplan_loops(catalogue: &[u8], v: &[u8], w: &[u8], area: &mut [u8]) -> i64
    ensures { LoopedCode catalogue.now v.now w.now area.old result
        area.new }
{
    call_codes::loops_code(busplan::loops(catalogue, v, w, area))
}

#[unsafe(no_mangle)]
pub extern "C" fn busplan_lead_in_check(
    catalogue: &[u8],
    v: &[u8],
    w: &[u8],
    u: &[u8],
    area0: &mut [u8],
    area1: &mut [u8],
) -> i64
    ensures answer { result ≡ check_code (check_answer catalogue.now v.now w.now
        u.now area0.old area1.old) }
    ensures bytes0 { area0.new ≡ check_area0 catalogue.now v.now w.now
        u.now area0.old area1.old }
    ensures bytes1 { area1.new ≡ check_area1 catalogue.now v.now w.now
        u.now area0.old area1.old }
{
    call_codes::check_code(busplan::lead_in_check(catalogue, v, w, u, area0, area1))
}

// fault receives the plan and the place.
#[unsafe(no_mangle)]
pub extern "C" fn busplan_fault(
    catalogue: &[u8],
    v: &[u8],
    w: &[u8],
    u: &[u8],
    fault: &mut [u64; 2],
) -> i64
    ensures answer { result ≡ fault_code (fault_answer catalogue.now v.now w.now
        u.now) }
    ensures numbers { fault.new ≡ fault_numbers (fault_answer catalogue.now v.now
        w.now u.now) fault.old }
{
    let found = busplan::fault(catalogue, v, w, u);
    *fault = call_codes::fault_numbers(found, *fault);
    call_codes::fault_code(found)
}

#[unsafe(no_mangle)]
pub extern "C" fn busplan_write_out(catalogue: &[u8], text: &[u8], area: &mut [u8]) -> i64
    ensures answer { result
        ≡ length_code (write_out_answer catalogue.now text.now area.old) }
    ensures bytes { area.new
        ≡ write_out_area catalogue.now text.now area.old }
{
    call_codes::length_code(busplan::write_out(catalogue, text, area))
}

// fault receives the plan and the place.
#[unsafe(no_mangle)]
pub extern "C" fn busplan_text_fault(catalogue: &[u8], text: &[u8], fault: &mut [u64; 2]) -> i64
    ensures answer { result ≡ fault_code (text_fault catalogue.now text.now) }
    ensures numbers { fault.new
        ≡ fault_numbers (text_fault catalogue.now text.now) fault.old }
{
    let wrong = busplan::text_fault(catalogue, text);
    *fault = call_codes::fault_numbers(wrong, *fault);
    call_codes::fault_code(wrong)
}
