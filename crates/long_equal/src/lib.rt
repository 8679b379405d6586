// The products v·u and u·w of plans v and w and a lead-in u, in normal form, and whether they are equal.

#![tactic(auto)]

ghost use Rattle.std.specs.Prelude.{ℕ, List};
ghost use Rattle.long_equal.specs.Comparing.{Comparable, Compared};

use array_row::same_bytes;
use long_product::product;
use spec::LeadIn;

// Writes the normal form of v·u at the start of area0 and that of u·w at the start of area1, and compares them.
pub fn compare(
    v: &[u8],
    w: &[u8],
    u: &[u8],
    conflicts: &[[u16; 24]; 24],
    area0: &mut [u8],
    area1: &mut [u8],
) -> LeadIn
    requires { (c : List ℕ) × Comparable c conflicts.now v.now w.now u.now area0.old area1.old }
    ensures { (c : List ℕ)
        → Comparable c conflicts.now v.now w.now u.now
        area0.old area1.old
        → Compared c v.now w.now u.now area0.old area0.new
        area1.old area1.new result }
{
    let vu = product(v, u, conflicts, area0);
    let uw = product(u, w, conflicts, area1);
    let yes = same_bytes(&area0[..vu], &area1[..uw]);
    LeadIn { yes, vu, uw }
}
