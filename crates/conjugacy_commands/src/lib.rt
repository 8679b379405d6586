// The commands that occur in a word of letters, as 24 flags, and whether the same occur in two words.

#![tactic(auto)]

ghost use Rattle.std.specs.Prelude.{ℕ, ◌+◌, ◌<◌, ◌≡◌, true, List, ◌↔◌};
ghost use Rattle.theory_words.specs.All.{All};
ghost use Rattle.theory_conjugacy.specs.Part as Part;
ghost use Rattle.spec.specs.Byte.{command_of};
ghost use Rattle.spec.specs.Letters.{alphabet};
ghost use Rattle.input_plan.specs.Lettered.{Lettered};
ghost use Rattle.conjugacy_commands.specs.Flags.{Flags};

// The index of a letter's command, of which the smallest is 1.
fn index_of(letter: u8) -> usize
    requires { Lettered letter }
    ensures { (result < 24) × (result + 1 ≡ command_of letter) }
{
    (letter % 128) as usize - 1
}

// Flag k tells whether command k + 1 occurs in the word. Flags are numbers, so that a line of conflicts, which a piling
// adds to its heights, is of the same type.
pub fn occurring(word: &[u8]) -> [u16; 24]
    requires { All Lettered word.now }
    ensures { (c : List ℕ) → Flags (Part.commands (alphabet c) word.now) result }
{
    let mut flags = [0; 24];
    for letter in word {
        let k = index_of(*letter);
        flags[k] = 1;
    }
    flags
}

// Whether the same commands are flagged. A function, so that callers learn it of the commands and not of the flags.
pub fn same_commands(flags: &[u16; 24], others: &[u16; 24]) -> bool
    ensures { (ks js : List ℕ) → Flags ks flags.now → Flags js others.now
        → (result ≡ true) ↔ (ks ≡ js) }
{
    flags == others
}
