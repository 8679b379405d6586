// Places in a word, taken two by two: whether each names a letter, and whether the first letter of each pair stays
// before the second.

#![tactic(auto)]

ghost use Rattle.std.specs.Prelude.{ℕ, ◌*◌, ◌<◌, ◌≡◌, List, length};
ghost use Rattle.std.proofs.Math.Option.{none};
ghost use Rattle.spec.specs.Precedence.{places_line, all_lead};
ghost use Rattle.spec.specs.Precedence as Precedence;
ghost use Rattle.schedule_chains.specs.Following.{Followable};
ghost use Rattle.schedule_precedence.specs.Searching.{FirstPair};

use schedule_chains::leads;

// Whether pair p lacks its second place, names a place that is none of so many letters, or names one place twice.
fn faulty(places: &[u16], p: usize, letters: usize) -> bool
    requires { 2 * p < length places.now }
    ensures { result ≡ Precedence.faulty letters places.now p }
{
    let at = 2 * p;
    if places.len() <= at + 1 {
        return true;
    }
    let first = places[at] as usize;
    let second = places[at + 1] as usize;
    if letters <= first {
        return true;
    }
    if letters <= second {
        return true;
    }
    first == second
}

// The number of the first faulty pair, if one is.
pub fn first_faulty(places: &[u16], letters: usize) -> Option<usize>
    ensures { FirstPair letters places.now result }
{
    for p in 0..places.len().div_ceil(2) {
        if faulty(places, p, letters) {
            return Some(p);
        }
    }
    None
}

// Whether the first letter of each pair stays before the second. No pair is faulty.
pub fn all_lead(word: &[u8], conflicts: &[[u16; 24]; 24], places: &[u16]) -> bool
    requires { ((c : List ℕ) × Followable c word.now conflicts.now)
        × (places_line (length word.now) places.now ≡ none) }
    ensures { (c : List ℕ) → Followable c word.now conflicts.now
        → result ≡ all_lead c word.now places.now }
{
    for p in 0..places.len() / 2 {
        let first = places[2 * p] as usize;
        let second = places[2 * p + 1] as usize;
        if !leads(word, conflicts, first, second) {
            return false;
        }
    }
    true
}
