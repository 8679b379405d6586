// The answers to the bench cases, of the library and of the solver, and how they are printed.

#![tactic(auto)]

mod answer;
mod areas;
mod library;
mod printing;

pub use answer::{Answer, Pairs, SlotRow, Slots, Told};
pub use areas::{Bytes, KEPT_BYTE, KEPT_NUMBER, Numbers, kept, widened};
pub use library::{letters, refused};
pub use printing::{answers, byte, count, every, number, refusal, signed, text};
