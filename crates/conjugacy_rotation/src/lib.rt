// The search for a rotation: the first starting place at which one ring, read round, is another.

#![tactic(auto)]

ghost use Rattle.std.specs.Prelude.{ℕ, ◌≡◌, ◌↔◌, List, IsTrue};
ghost use Rattle.spec.specs.Answers.{told_option};
ghost use Rattle.spec.specs.Letters.{alphabet};
ghost use Rattle.theory_conjugacy.specs.Rotation.{rotation};

use array_row::same_bytes;

// Whether two words are the same, by their first letters first: most often those differ. It is taken into the search.
#[inline(always)]
fn same_block(a: &[u8], b: &[u8]) -> bool
    ensures { IsTrue result ↔ a.now ≡ b.now }
{
    a.first() == b.first() && same_bytes(a, b)
}

// The first starting place at which the two rings agree. Rings of different lengths agree nowhere, empty ones at 0.
// The specification names the form: nested loops, `continue` on the labelled outer one, `break` out with the start.
// A place is compared in blocks of 64 letters, first those before the end of the ring and then those past it.
pub fn rotation(ring: &[u8], other: &[u8]) -> Option<usize>
    ensures { (c : List ℕ) → told_option result ≡ rotation (alphabet c) ring.now other.now }
{
    if other.len() != ring.len() {
        return None;
    }
    let mut found = None;
    'starts: for i in 0..ring.len().max(1) {
        let (near, far) = other.split_at(ring.len() - i);
        for (a, b) in ring[i..].chunks(64).zip(near.chunks(64)) {
            if !same_block(a, b) {
                continue 'starts;
            }
        }
        for (a, b) in ring[..i].chunks(64).zip(far.chunks(64)) {
            if !same_block(a, b) {
                continue 'starts;
            }
        }
        found = Some(i);
        break 'starts;
    }
    found
}
