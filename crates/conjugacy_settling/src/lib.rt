// Settling a word on its apex: the manual's rounds, each a split of the word whose upper half then comes before the
// lower one. The letters that the rounds cycle are written out one round after the other.

#![tactic(auto)]

ghost use Rattle.std.specs.Prelude.{ℕ, List, length, take};
ghost use Rattle.conjugacy_settling.specs.Halving.{Place, Placed, Splittable, Halved};
ghost use Rattle.conjugacy_settling.specs.Settling.{Settleable, Ended};

use array_row::append;
use array_sets::{add, contains, independent, none};

// Where the halves of a split end: the lower one in the word, the upper one in high.
#[derive(Clone, Copy)]
struct Halves {
    low: usize,
    high: usize,
}

// The end of the letters that settling cycled, and how many rounds it took.
#[derive(Clone, Copy)]
pub struct Settled {
    pub end: usize,
    pub rounds: usize,
}

// One letter goes to its half. If it goes to the upper one its command is raised. A letter of a raised command needs no
// set test: a command conflicts with itself. No struct of low, high and ends: it would hold the word that split reads.
fn place(
    letter: u8,
    apex: usize,
    conflicts: &[[u16; 24]; 24],
    raised: &mut [u16; 24],
    low: &mut [u8],
    high: &mut [u8],
    ends: Halves,
) -> Halves
    requires { Place letter conflicts.now raised.old low.old high.old ends }
    ensures { Placed letter apex conflicts.now raised.old low.old
        high.old ends raised.new low.new high.new result }
{
    let k = (letter % 128) as usize;
    let l = ends.low;
    let h = ends.high;
    if k != apex && !contains(k - 1, raised) && independent(k - 1, conflicts, raised) {
        low[l] = letter;
        return Halves {
            low: l + 1,
            high: h,
        };
    }
    high[h] = letter;
    add(k - 1, conflicts, raised);
    Halves {
        low: l,
        high: h + 1,
    }
}

// The halves of a word, in one scan: upper are the apex letters and those that must stay after one or after a raised
// command. The lower half comes to stand at the start of the word, and the upper one in high behind what stands there.
fn split(
    word: &mut [u8],
    apex: usize,
    conflicts: &[[u16; 24]; 24],
    raised: &mut [u16; 24],
    high: &mut [u8],
    from: usize,
) -> Halves
    requires { (c : List ℕ) × (R : List ℕ)
        × Splittable c R word.old conflicts.now raised.old high.old from }
    ensures { (c R : List ℕ)
        → Splittable c R word.old conflicts.now raised.old high.old from
        → Halved c apex R word.old conflicts.now high.old from word.new
        raised.new high.new result }
{
    let mut ends = Halves { low: 0, high: from };
    // by index, since place writes into the word that is read
    for i in 0..word.len() {
        ends = place(word[i], apex, conflicts, raised, word, high, ends);
    }
    ends
}

// The connected word settled on its apex, at the start of high, and the letters that the rounds cycle, from a place in
// cycled on. A letter that has gone up stays up, so each round looks only at the letters that were low in the last one.
// They stand at the start of word.
pub fn settle(
    word: &mut [u8],
    apex: usize,
    conflicts: &[[u16; 24]; 24],
    high: &mut [u8],
    cycled: &mut [u8],
    at: usize,
) -> Settled
    requires { (c : List ℕ) × Settleable c apex word.old conflicts.now high.old cycled.old at }
    ensures { (c : List ℕ)
        → Settleable c apex word.old conflicts.now high.old cycled.old at
        → Ended c apex word.old (take (length word.old) high.new)
        cycled.old cycled.new at result }
{
    let mut raised = none();
    let mut lower = word.len();
    let mut upper = 0;
    let mut end = at;
    let mut rounds = 0;
    // no for: how many rounds it takes shows only in the last
    loop {
        let ends = split(
            &mut word[..lower],
            apex,
            conflicts,
            &mut raised,
            high,
            upper,
        );
        lower = ends.low;
        if lower == 0 {
            return Settled { end, rounds };
        }
        upper = ends.high;
        end = append(cycled, end, &word[..lower]);
        rounds += 1;
    }
}
