// The ring of one part of a core: the part is settled on its apex, and the settled word put in normal form.

#![tactic(auto)]

ghost use Rattle.std.specs.Prelude.{ℕ, ◌≤◌, List, length};
ghost use Rattle.spec.specs.Letters.{normal_form};
ghost use Rattle.array_row.specs.Area.{StartsWith};
ghost use Rattle.conjugacy_settled_parts.specs.PartOf.{Cyclic, PartOf};
ghost use Rattle.conjugacy_ring.specs.Ring.{Rung};

use array_row::append;
use conjugacy_cliques::clique;
use conjugacy_commands::occurring;
use conjugacy_settled_parts::{Ends, settle_part};
use long_form::form;

// Writes the normal form of a cyclically reduced word into the ring and gives its length. Where the word's commands all
// conflict with each other, it is the word as it stands.
fn sorted(word: &[u8], conflicts: &[[u16; 24]; 24], ring: &mut [u8]) -> usize
    requires { ((c : List ℕ) × Cyclic c conflicts.now word.now) × (length word.now ≤ length ring.old) }
    ensures { (c : List ℕ) → Cyclic c conflicts.now word.now
        → StartsWith (normal_form c word.now) ring.old ring.new result }
{
    let flags = occurring(word);
    if clique(&flags, conflicts) {
        return append(ring, 0, word);
    }
    form(word, conflicts, ring)
}

// The ring of the part with this apex, and from a place in cycled on the letters that settling cycles.
pub fn ring_of(
    part: &[u8],
    apex: u8,
    conflicts: &[[u16; 24]; 24],
    ring: &mut [u8],
    cycled: &mut [u8],
    at: usize,
) -> Ends
    requires { ((c : List ℕ) × (x : List ℕ) × PartOf c conflicts.now x apex part.now cycled.old at)
        × (length part.now ≤ length ring.old) }
    ensures { (c x : List ℕ)
        → PartOf c conflicts.now x apex part.now cycled.old at
        → Rung c x apex ring.new cycled.old cycled.new at result }
{
    let mut word: [u8; 1024] = array_row::row(0);
    let ends = settle_part(part, apex, conflicts, &mut word, cycled, at);
    let letters = sorted(&word[..ends.letters], conflicts, ring);
    Ends {
        letters,
        cycled: ends.cycled,
        rounds: ends.rounds,
    }
}
