// Whether two plans that have passed their checks have the same normal form: one is piled up, the letters of the other
// are undone on the piling from the last to the first, and they are equal exactly if nothing is left.

#![tactic(auto)]

ghost use Rattle.std.specs.Prelude.{ℕ, ◌≡◌, true, List, reverse, ◌↔◌, length};
ghost use Rattle.theory_words.specs.Group.{◌≈◌};
ghost use Rattle.spec.specs.Letters.{alphabet, letters, normal_form};
ghost use Rattle.input_checks.specs.Passed.{Passed};
ghost use Rattle.array_counts.specs.Blank.{blank_heights};
ghost use Rattle.piling_stacks.specs.Blank.{blank_rows};
ghost use Rattle.piling_stacks.specs.Piling.{Counted};
ghost use Rattle.piling_stacks.specs.Pile.{reduced};
ghost use Rattle.piling_equal.specs.Comparing.{Undoable, Undone, Opposed, shorter, longer};

use piling_stacks::{Piling, opposite};

// Undoes one byte on a piling that has `spare` letters fewer than the plan has bytes up to this one. What of that is
// spent: nothing where the letter cancels, one by a filler, two by a letter put on. It is put on only if two are spare.
fn undo_byte(byte: u8, conflicts: &[[u16; 24]; 24], piling: &mut Piling, spare: usize) -> usize
    requires { (c : List ℕ) × (z : List ℕ)
        × Undoable c conflicts.now piling.old.rows piling.old.heights byte spare z }
    ensures { (c z : List ℕ)
        → Undoable c conflicts.now piling.old.rows piling.old.heights byte spare z
        → Undone c piling.new.rows piling.new.heights byte spare z result }
{
    if byte == 0 {
        return 1;
    }
    let k = (byte % 128) as usize - 1;
    let line = conflicts[k];
    let letter = opposite(byte);
    if piling.cancel(&line, k, letter) {
        return 0;
    }
    if spare < 2 {
        return 2;
    }
    piling.put(&line, k, letter);
    2
}

// Whether the word piled up, of n letters, is that of plan w. If it is, what is left of it never has more letters than
// w has bytes still to undo, since no equal word is shorter: the rows are wide enough, and at the end nothing is left.
fn equals(w: &[u8], conflicts: &[[u16; 24]; 24], piling: &mut Piling, n: usize) -> bool
    requires { (c : List ℕ) × (z : List ℕ) × Opposed c w.now conflicts.now piling.old.rows piling.old.heights n z }
    ensures { (c z : List ℕ)
        → Opposed c w.now conflicts.now piling.old.rows piling.old.heights n z
        → (result ≡ true) ↔ (◌≈◌ (alphabet c) z (reverse (letters w.now))) }
{
    if w.len() < n {
        return false;
    }
    let mut spare = w.len() - n;
    for &byte in w.iter().rev() {
        let spent = undo_byte(byte, conflicts, piling, spare);
        if spare < spent {
            return false;
        }
        spare -= spent;
    }
    true
}

// The piling of the shorter plan, where there was no bead, and its number of letters. Its pairs go to a row that nobody
// reads. Not inlined: so the stack of `equal` stays small.
#[inline(never)]
fn pile_shorter(
    v: &[u8],
    w: &[u8],
    conflicts: &[[u16; 24]; 24],
    piling: &mut Piling,
    pairs: &mut [u16; 1024],
) -> usize
    requires { (c : List ℕ) × Passed c conflicts.now v.now × Passed c conflicts.now w.now
        × (piling.old.rows ≡ blank_rows) × (piling.old.heights ≡ blank_heights) × (1024 ≡ length pairs.old) }
    ensures { (c : List ℕ) → Passed c conflicts.now v.now
        → Passed c conflicts.now w.now
        → Counted c piling.new.rows piling.new.heights
        (reduced c (shorter v.now w.now)) result }
{
    if w.len() < v.len() {
        let shorter = piling_pairs::pile(w, conflicts, piling, pairs);
        return shorter.letters;
    }
    let shorter = piling_pairs::pile(v, conflicts, piling, pairs);
    shorter.letters
}

// Whether the word piled up, of n letters, is that of the longer plan. The piling is lent: by value today's compiler
// copied it, 24 kB.
fn equals_longer(
    v: &[u8],
    w: &[u8],
    conflicts: &[[u16; 24]; 24],
    piling: &mut Piling,
    n: usize,
) -> bool
    requires { (c : List ℕ) × (z : List ℕ)
        × Opposed c (longer v.now w.now) conflicts.now piling.old.rows piling.old.heights n z }
    ensures { (c z : List ℕ)
        → Opposed c (longer v.now w.now) conflicts.now piling.old.rows piling.old.heights n z
        → (result ≡ true) ↔ (◌≈◌ (alphabet c) z (reverse (letters (longer v.now w.now)))) }
{
    if w.len() < v.len() {
        return equals(v, conflicts, piling, n);
    }
    equals(w, conflicts, piling, n)
}

// Whether two plans have the same normal form. The shorter is piled up: where the lengths differ much, undoing the
// other soon leaves too many letters. Two empty plans make no row.
pub fn equal(v: &[u8], w: &[u8], conflicts: &[[u16; 24]; 24]) -> bool
    requires { (c : List ℕ) × Passed c conflicts.now v.now × Passed c conflicts.now w.now }
    ensures { (c : List ℕ) → Passed c conflicts.now v.now
        → Passed c conflicts.now w.now
        → (result ≡ true) ↔ (normal_form c v.now ≡ normal_form c w.now) }
{
    if v.len() + w.len() == 0 {
        return true;
    }
    let mut piling = Piling::blank();
    let mut pairs: [u16; 1024] = array_row::row(0);
    let n = pile_shorter(v, w, conflicts, &mut piling, &mut pairs);
    equals_longer(v, w, conflicts, &mut piling, n)
}
