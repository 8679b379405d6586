// What the library answers, as the solver says it.

use cases_solver::{Form, Refusal};

pub fn refused(refusal: spec::Refusal) -> Refusal {
    Refusal {
        number: refusal.reason as u8,
        plan: refusal.plan,
        place: refusal.place,
    }
}

// The form of so many letters at the start of an area, of which the first 62 count.
pub fn letters(area: &[u8], length: usize) -> Form {
    let mut letters = [0; 64];
    for (letter, a) in letters.iter_mut().zip(area.iter().take(length.min(62))) {
        *letter = *a;
    }
    Form { length, letters }
}
