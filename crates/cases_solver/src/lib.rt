// A second opinion on the bench cases, which knows nothing of the library but the specification: words are rewritten
// letter by letter, with no piling and no row of beads.

// The catalogue c and the plans are loose parameters, as in the calls of busplan: beside c goes a plan, or two, or a
// word, or a letter, so that a struct of c and a plan would fit few functions.

#![tactic(auto)]

mod arranging;
mod catalogue;
mod conjugacy;
mod form;
mod found;
mod pairing;
mod refusals;
mod rounds;
mod slotting;
mod word;

pub use arranging::{Arrangements, all_stay_before, arrangements, in_order};
pub use catalogue::tied;
pub use conjugacy::{core, joined, leads};
pub use form::{Form, normal_form};
pub use found::Found;
pub use pairing::pairs;
pub use refusals::{
    Refusal, check_catalogue, check_form, check_loops, check_normal_form, check_precedence,
    check_slots, check_three,
};
pub use rounds::most_rounds;
pub use slotting::slots;
pub use word::{Word, at, undo};
