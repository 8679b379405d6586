// The calls on bus plans that are open to callers in Rattle, each from a crate of its own; the crate busplan_c has them
// for callers from C.
// A call takes any bytes as catalogue and plans and answers with a result or with exactly one refusal of the manual's
// table; a refusal changes nothing that was lent. The crate spec defines what each call answers (specs/Calls.antt,
// specs/Slots.antt, specs/Precedence.antt, specs/Loops.antt) and states what that is worth (specs/Demands.antt).

#![tactic(auto)]

pub use call_catalogue::read_catalogue;
pub use call_equal::equal;
pub use call_fault::fault;
pub use call_forms::{core, normal_form};
pub use call_lead_in_check::lead_in_check;
pub use call_loops::loops;
pub use call_precedence::precedence;
pub use call_slots::slots;
pub use notation_write_out::{text_fault, write_out};

// The types of the answers.
pub use spec::{LeadIn, Loops, NormalForm, Reason, Refusal, Slots};
