// Every plan of four bytes under K, and every two plans of two bytes.

use crate::{Call, Field, Question};

// 0, 1, 2, 3, 4, −1, −2, −3 and −4.
const BYTES: [u8; 9] = [0, 1, 2, 3, 4, 129, 130, 131, 132];

// Two more bytes in a part, those of number p.
fn push_two(q: &mut Question, part: Field, p: usize) {
    q.push(part, BYTES[p % 9]);
    q.push(part, BYTES[p / 9 % 9]);
}

// A call on the plan of four bytes that has number p.
pub fn plan_of_four(call: Call, p: usize) -> Question {
    let mut q = Question::under_k(call);
    push_two(&mut q, Field::V, p);
    push_two(&mut q, Field::V, p / 81);
    q
}

// A call on the plans v and w of two bytes each that have number p.
pub fn plans_of_two(call: Call, p: usize) -> Question {
    let mut q = Question::under_k(call);
    push_two(&mut q, Field::V, p);
    push_two(&mut q, Field::W, p / 81);
    q
}
