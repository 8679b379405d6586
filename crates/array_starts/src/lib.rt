// Where a search for the next of 24 rows may start: a letter changes only the rows that conflict with its own.

#![tactic(auto)]

ghost use Rattle.std.specs.Prelude.{ℕ, List};
ghost use Rattle.input_chains.specs.Conflicts.{Conflicts};
ghost use Rattle.array_starts.specs.Starts.{Starts};

// For each row how many rows come before the first one that conflicts with it.
pub fn starts(conflicts: &[[u16; 24]; 24]) -> [u16; 24]
    requires { (c : List ℕ) × Conflicts c conflicts.now }
    ensures { Starts conflicts.now result }
{
    let mut counts = array_counts::blank_heights();
    let mut free = array_counts::ones();
    for j in 0..24 {
        array_counts::clear(&mut free, &conflicts[j]);
        array_counts::lift(&mut counts, &free);
    }
    counts
}
