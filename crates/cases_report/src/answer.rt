// Answers, as they are compared and printed.

ghost use Rattle.std.specs.Prelude.{◌≡◌};

use cases_solver::{Form, Refusal, at};

// Pairs: how many there are, and the places of the letters of the first 14, that of the earlier letter before that of
// the later, with zeros behind them.
#[derive(Clone, Copy, PartialEq, Eq)]
pub struct Pairs {
    pub count: usize,
    pub places: [u16; 28],
}

impl Pairs {
    // So many pairs at the start of a second area.
    pub fn of(numbers: &[u16], count: usize) -> Pairs
        ensures { result.count ≡ count }
    {
        let mut places = [0; 28];
        for (place, number) in places
            .iter_mut()
            .zip(numbers.iter().take(2 * count.min(14)))
        {
            *place = *number;
        }
        Pairs { count, places }
    }

    // The same, how many there are told modulo 256, as an answer has them.
    pub fn in_row(numbers: &[u16], count: usize) -> Pairs {
        let mut told = Pairs::of(numbers, count);
        told.count %= 256;
        told
    }
}

// A normal form, the slots of its first 28 letters with zeros behind them, and how many slots are in use.
#[derive(Clone, Copy, PartialEq, Eq)]
pub struct Slots {
    pub form: Form,
    pub slots: [u16; 28],
    pub in_use: usize,
}

impl Slots {
    // The slots at the start of a slot area; one that is above 255 is told as 255.
    pub fn of(form: Form, numbers: &[u16], in_use: usize) -> Slots
        ensures form { result.form ≡ form }
        ensures in_use { result.in_use ≡ in_use }
    {
        let mut slots = [0; 28];
        for (slot, number) in slots.iter_mut().zip(numbers.iter().take(form.length)) {
            *slot = (*number).min(255);
        }
        Slots {
            form,
            slots,
            in_use,
        }
    }
}

// Slots as an answer has them, a byte each. There is room for 28 letters alone: over the ones behind them lie the number
// in use and then the slots.
#[derive(Clone, Copy, PartialEq, Eq)]
pub struct SlotRow {
    pub form: Form,
    pub slots: [u8; 28],
    pub in_use: u8,
}

// A number as a byte; one that is above 255 is told as 255.
fn short(number: usize) -> u8 {
    u8::try_from(number).unwrap_or(255)
}

impl SlotRow {
    // The slots at the start of a slot area.
    pub fn of(form: Form, numbers: &[u16], in_use: usize) -> SlotRow {
        let mut told = SlotRow {
            form,
            slots: [0; 28],
            in_use: short(in_use),
        };
        told.form.letters[28] = told.in_use;
        for i in 0..form.length.min(28) {
            let slot = short(usize::from(at(numbers, i)));
            told.slots[i] = slot;
            told.form.letters[29 + i] = slot;
        }
        told
    }
}

// What a call answers that is not refused.
#[derive(Clone, Copy, PartialEq, Eq)]
pub enum Answer {
    // the number that a catalogue's table has for two commands, modulo 256: 1 if they conflict, or else 0
    Conflict(u8),
    // a normal form or a core, its length modulo 256
    Form(Form),
    Pairs(Pairs),
    Slots(SlotRow),
    // of a precedence check
    InOrder(bool),
    // of two plans
    Equal(bool),
    // of two loops, with the rounds that settling takes; astray if their lead-in is none
    Joined(usize),
    Apart(usize),
    Astray(usize),
    NoFault,
    LeadIn(bool),
}

// An answer, with whether all numbers of the second area were kept that were to be kept.
#[derive(Clone, Copy, PartialEq, Eq)]
pub struct Told {
    pub answer: Result<Answer, Refusal>,
    pub kept: bool,
}

#[cfg(test)]
mod tests {
    use super::*;

    #[test]
    fn numbers_are_told_whole(rt: HostRuntime) {
        let pairs = Pairs::of(&[1, 4, 2, 3], 300);
        assert_eq!(rt; pairs.count, 300);
        assert_eq!(rt; pairs.places[3], 3);
        assert_eq!(rt; Pairs::in_row(&[1, 4, 2, 3], 300).count, 44);
        let form = Form {
            length: 29,
            letters: [4; 64],
        };
        let slots = Slots::of(form, &[7; 29], 300);
        assert_eq!(rt; slots.in_use, 300);
        assert_eq!(rt; slots.slots[27], 7);
        assert_eq!(rt; slots.form.letters[28], 4);
        let row = SlotRow::of(form, &[7; 29], 300);
        assert_eq!(rt; row.in_use, 255);
        assert_eq!(rt; row.slots[27], 7);
        assert_eq!(rt; row.form.letters[28], 255);
        assert_eq!(rt; row.form.letters[29], 7);
    }
}
