// The numbers that the table gives the reasons of refusals, and those that a C caller gets for the answers of the
// calls. spec/specs/Table.antt and spec/specs/Codes.antt define them.

#![tactic(auto)]

ghost use Rattle.std.specs.Prelude.{◌+◌, ◌<◌, ◌^◌, ◌≡◌, pos, neg_ℤ, IfOk, IfSome};
ghost use Rattle.spec.specs.Table.{number_of};
ghost use Rattle.spec.specs.Answers.{told_written, told_equality, told_loops, told_lead_in, told_fault};
ghost use Rattle.spec.specs.Answers.{told_slots, told_precedence};
ghost use Rattle.spec.specs.Codes.{length_code, equal_code, loops_code, check_code, fault_code};
ghost use Rattle.spec.specs.Codes.{slots_code, in_use_number, precedence_code, refused_by};
ghost use Rattle.spec.specs.Fault.{fault_numbers};

use spec::{LeadIn, Loops, Reason, Refusal, Slots};

// The number that the manual's table gives a reason. In a function, whose clause ties the cast to number_of.
pub fn number(reason: Reason) -> u8
    ensures { result ≡ number_of reason }
{
    reason as u8
}

// Minus the number of a refusal's reason.
fn refusal_code(refusal: Refusal) -> i64
    ensures { result ≡ neg_ℤ (pos (number_of refusal.reason)) }
{
    -(number(refusal.reason) as i64)
}

pub fn length_code(answer: Result<usize, Refusal>) -> i64
    requires { IfOk answer (λ l. l < 2 ^ 63) }
    ensures { result ≡ length_code (told_written answer) }
{
    answer.map_or_else(refusal_code, |length| length as i64)
}

pub fn slots_code(answer: Result<Slots, Refusal>) -> i64
    requires { IfOk answer (λ s. s.length < 2 ^ 63) }
    ensures { result ≡ slots_code (told_slots answer) }
{
    answer.map_or_else(refusal_code, |slots| slots.length as i64)
}

// How many slots are in use, or the number that was there if the call is refused.
pub fn slots_number(answer: Result<Slots, Refusal>, number: [u64; 1]) -> [u64; 1]
    ensures { result ≡ in_use_number (told_slots answer) number }
{
    match answer {
        Ok(slots) => [slots.in_use as u64],
        Err(_) => number,
    }
}

pub fn precedence_code(answer: Result<bool, Refusal>) -> i64
    ensures { result ≡ precedence_code (told_precedence answer) }
{
    equal_code(answer)
}

// What a precedence check is refused for, if it is.
pub fn precedence_fault(answer: Result<bool, Refusal>) -> Option<Refusal>
    ensures { told_fault result ≡ refused_by (told_precedence answer) }
{
    answer.err()
}

pub fn equal_code(answer: Result<bool, Refusal>) -> i64
    ensures { result ≡ equal_code (told_equality answer) }
{
    answer.map_or_else(refusal_code, |yes| yes as i64)
}

pub fn loops_code(answer: Result<Loops, Refusal>) -> i64
    requires { IfOk answer (λ d. IfSome d.lead_in (λ l. l + 1 < 2 ^ 63)) }
    ensures { result ≡ loops_code (told_loops answer) }
{
    answer.map_or_else(
        refusal_code,
        |loops| loops.lead_in.map_or(0, |length| (length + 1) as i64),
    )
}

pub fn check_code(answer: Result<LeadIn, Refusal>) -> i64
    ensures { result ≡ check_code (told_lead_in answer) }
{
    answer.map_or_else(refusal_code, |check| check.yes as i64)
}

pub fn fault_code(fault: Option<Refusal>) -> i64
    ensures { result ≡ fault_code (told_fault fault) }
{
    fault.map_or(0, refusal_code)
}

// The plan and the place of a fault, or the numbers that were there if there is none.
pub fn fault_numbers(fault: Option<Refusal>, numbers: [u64; 2]) -> [u64; 2]
    ensures { result ≡ fault_numbers (told_fault fault) numbers }
{
    match fault {
        None => numbers,
        Some(refusal) => [refusal.plan as u64, refusal.place as u64],
    }
}
