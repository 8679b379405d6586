// Sets of the commands 1 to 24. A set keeps for each command how many in the set it conflicts with. The set test,
// whether a command is independent of every command in a set, compares its conflicts with the set as bits.

#![tactic(auto)]

ghost use Rattle.std.specs.Prelude.{◌<◌, ◌≡◌, true, ◌↔◌, [], get_or};
ghost use Rattle.array_sets.specs.Sets.{In, Clear, Table, Meeting, Added, empty};

use array_bits::gather;
use array_counts::lift;

// The set of no command.
#[tactic(auto, unfolding(crate::specs::Sets::empty))]
pub fn none() -> [u16; 24]
    ensures { result ≡ empty }
{
    [0; 24]
}

// Whether command k + 1 is in the set.
pub fn contains(k: usize, set: &[u16; 24]) -> bool
    requires { k < 24 }
    ensures { (result ≡ true) ↔ In set.now k }
{
    32768 <= set[k]
}

// Whether command k + 1 is independent of every command in the set: its line of conflicts names none of them.
pub fn independent(k: usize, conflicts: &[[u16; 24]; 24], set: &[u16; 24]) -> bool
    requires { (k < 24) × Meeting conflicts.now set.now }
    ensures { (result ≡ true) ↔ Clear (get_or conflicts.now k []) set.now }
{
    // The commands that it conflicts with, and those in the set.
    let against = gather(&conflicts[k], 1, 1);
    let inside = gather(set, 32768, 65535);
    against & inside == 0
}

// Command k + 1 is put in the set, with its conflicts.
pub fn add(k: usize, conflicts: &[[u16; 24]; 24], set: &mut [u16; 24])
    requires { (k < 24) × Table conflicts.now × Meeting conflicts.now set.old }
    ensures { Added k conflicts.now set.old set.new }
{
    if contains(k, set) {
        return;
    }
    lift(set, &conflicts[k]);
    set[k] += 32768;
}
