// Whether no command conflicts with another, so that a letter changes the stack of its own command alone.

#![tactic(auto)]

ghost use Rattle.std.specs.Prelude.{ℕ, ◌<◌, ◌≤◌, ◌≡◌, true, List, sum};
ghost use Rattle.input_chains.specs.Conflicts.{Conflicts};
ghost use Rattle.array_lone.specs.Lone.{Lone};

// The sum of 24 numbers.
fn total(line: &[u16; 24]) -> u16
    requires { sum line.now < 65536 }
    ensures { result ≡ sum line.now }
{
    line.iter().sum()
}

// Whether no command conflicts with another. Most catalogues have a conflict in their first lines.
fn lone(conflicts: &[[u16; 24]; 24]) -> bool
    requires { (c : List ℕ) × Conflicts c conflicts.now }
    ensures { result ≡ true → Lone conflicts.now }
{
    for k in 0..24 {
        if total(&conflicts[k]) != 1 {
            return false;
        }
    }
    true
}

// As `lone`, asked only for plans of 64 bytes or more: for a shorter one the answer does not pay.
pub fn lone_for(n: usize, conflicts: &[[u16; 24]; 24]) -> bool
    requires { (c : List ℕ) × Conflicts c conflicts.now }
    ensures { result ≡ true → Lone conflicts.now }
{
    64 <= n && lone(conflicts)
}
