// A plan piled up from left to right, and the places of its letters that cancel with each other.

#![tactic(auto)]

ghost use Rattle.std.specs.Prelude.{ℕ, ◌+◌, ◌*◌, ◌<◌, ◌≤◌, ◌≡◌, List, length, get_or, set};
ghost use Rattle.std.proofs.Math.Option.{some};
ghost use Rattle.spec.specs.Pairs.{Placed, placed, partner};
ghost use Rattle.piling_stacks.specs.Piling.{Counted};
ghost use Rattle.piling_stacks.specs.Pile.{Given, reduced};
ghost use Rattle.piling_pairs.specs.Places.{Stepping, told_step, Stepped};
ghost use Rattle.piling_pairs.specs.Pairing.{Noted, PairsOf};

use piling_stacks::Piling;

// Where the letters left of a plan stood in it: the place of the newest of each command, and below, for the place of
// each letter left, that of the next letter of its command below it.
#[derive(Drop)]
pub struct Places {
    pub newest: [u16; 24],
    pub below: [u16; 1024],
}

impl Places {
    // Of no letter.
    fn blank() -> Places
        ensures newest { length result.newest ≡ 24 }
        ensures below { length result.below ≡ 1024 }
    {
        Places {
            newest: [0; 24],
            below: [0; 1024],
        }
    }

    // A letter of command k + 1 was put on: its place is now the newest of its command.
    fn cover(&mut self, k: usize, place: usize)
        requires { (k < 24) × (place < 1024) × (length self.old.newest ≡ 24) × (length self.old.below ≡ 1024) }
        ensures newest { self.new.newest ≡ set self.old.newest k place }
        ensures below { self.new.below ≡ set self.old.below place (get_or self.old.newest k 0) }
    {
        self.below[place] = self.newest[k];
        self.newest[k] = place as u16;
    }

    // The newest letter of command k + 1 was taken off: its place, and the one below is now the newest.
    fn uncover(&mut self, k: usize) -> u16
        requires { (k < 24) × (get_or self.old.newest k 0 < 1024) × (length self.old.newest ≡ 24)
            × (length self.old.below ≡ 1024) }
        ensures place { result ≡ get_or self.old.newest k 0 }
        ensures newest { self.new.newest
            ≡ set self.old.newest k (get_or self.old.below (get_or self.old.newest k 0) 0) }
        ensures below { self.new.below ≡ self.old.below }
    {
        let place = self.newest[k];
        self.newest[k] = self.below[place as usize];
        place
    }

    // The step: a letter of command k + 1, at this place of its plan, cancels or is put on. Where it cancels it tells
    // the place of the letter that it cancels with.
    pub fn push(
        &mut self,
        piling: &mut Piling,
        line: &[u16; 24],
        k: usize,
        letter: u8,
        place: usize,
    ) -> Option<u16>
        requires { (c : List ℕ) × (t : List Placed)
            × Stepping c piling.old.rows piling.old.heights self.old.newest self.old.below
            line.now k letter place t }
        ensures { (c : List ℕ) (t : List Placed)
            → Stepping c piling.old.rows piling.old.heights self.old.newest self.old.below
            line.now k letter place t
            → Stepped c piling.new.rows piling.new.heights self.new.newest self.new.below
            (placed letter place) t (partner c letter t) (told_step result) }
    {
        if piling.cancel(line, k, letter) {
            return Some(self.uncover(k));
        }
        piling.put(line, k, letter);
        self.cover(k, place);
        None
    }
}

// The letters left of a plan, and the pairs that have cancelled.
#[derive(Clone, Copy)]
pub struct Reduction {
    pub letters: usize,
    pub pairs: usize,
}

// Writes the pair that a step at the later place has made, if any, behind n pairs. The number of pairs then.
fn paired(pairs: &mut [u16], n: usize, step: Option<u16>, later: u16) -> usize
    requires { (earlier : ℕ) → told_step step ≡ some earlier → 2 * n + 1 < length pairs.old }
    ensures { Noted pairs.old n later (told_step step) pairs.new result }
{
    match step {
        None => n,
        Some(earlier) => {
            pairs[2 * n] = earlier;
            pairs[2 * n + 1] = later;
            n + 1
        }
    }
}

// The piling of a plan that passes, where there was no bead, and at the start of pairs the places of its letters that
// cancel with each other: the earlier, then the later, pair after pair. conflicts has a line for each command.
pub fn pile(
    plan: &[u8],
    conflicts: &[[u16; 24]; 24],
    piling: &mut Piling,
    pairs: &mut [u16],
) -> Reduction
    requires { (c : List ℕ) × Given c plan.now conflicts.now piling.old.rows piling.old.heights
        × (length plan.now ≤ length pairs.old) }
    ensures piled { (c : List ℕ)
        → Given c plan.now conflicts.now piling.old.rows piling.old.heights
        → Counted c piling.new.rows piling.new.heights (reduced c plan.now) result.letters }
    ensures paired { (c : List ℕ)
        → Given c plan.now conflicts.now piling.old.rows piling.old.heights
        → PairsOf c plan.now pairs.old pairs.new result.pairs }
{
    let mut places = Places::blank();
    let mut read = 0;
    let mut n = 0;
    for (i, &letter) in plan.iter().enumerate() {
        if letter != 0 {
            let k = (letter % 128) as usize - 1;
            let line = conflicts[k];
            let step = places.push(piling, &line, k, letter, i);
            n = paired(pairs, n, step, i as u16);
            read += 1;
        }
    }
    Reduction {
        letters: read - 2 * n,
        pairs: n,
    }
}
