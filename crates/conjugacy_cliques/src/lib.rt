// Whether commands, told by 24 flags, all conflict with each other. No two letters of them can then be swapped.

#![tactic(auto)]

ghost use Rattle.std.specs.Prelude.{ℕ, ◌<◌, ◌≡◌, true, List, ◌↔◌, get_or};
ghost use Rattle.theory_conjugacy.specs.Clique.{Clique};
ghost use Rattle.spec.specs.Letters.{alphabet};
ghost use Rattle.input_chains.specs.Conflicts.{Conflicts};
ghost use Rattle.conjugacy_commands.specs.Flags.{Flags};
ghost use Rattle.conjugacy_cliques.specs.Covered.{Covered};

// Whether the line has a one wherever a flag is set. What is missing is gathered, with no way out of the loop, so that
// many flags are looked at at a time.
fn covers(line: &[u16; 24], flags: &[u16; 24]) -> bool
    ensures { (result ≡ true) ↔ Covered line.now flags.now }
{
    let mut missing: u16 = 0;
    for (flag, met) in flags.iter().zip(line) {
        missing |= *flag & (*met ^ 1);
    }
    missing == 0
}

// Whether every two flagged commands conflict.
pub fn clique(flags: &[u16; 24], conflicts: &[[u16; 24]; 24]) -> bool
    ensures { (c ks : List ℕ) → Conflicts c conflicts.now → Flags ks flags.now
        → (result ≡ true) ↔ Clique (alphabet c) ks }
{
    for (flag, line) in flags.iter().zip(conflicts) {
        if *flag == 1 && !covers(line, flags) {
            return false;
        }
    }
    true
}
